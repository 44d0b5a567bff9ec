// A field of a setup judged by the fields before it: refusals 4, 50 to 54, and 6.
ghost use Rattle.std.specs.Prelude.{◌≡◌, ◌+◌, ◌≤◌};
ghost use Rattle.plan.specs.Fields.{SetupItem, setup_item_of};
ghost use Rattle.plan.specs.Judge.{known_format, default_of, longest_of, longest_right, within, misplaced, lane_outside, outside, over, offset, settled, faulted, seen_after, judged_at};

use crate::parse::{LaneField, SetupField};
use rules::Refusal;

// R1.1 to R1.3: lanes are numbered 0 to 63, a weight is 1 to 1,024, a longest 64 to 1,500, and the weights sum to at most 1,024.
pub const LAST_LANE: u8 = 63;

pub const LEAST_WEIGHT: u16 = 1;

pub const MOST_WEIGHT: u16 = 1024;

pub const LEAST_LONGEST: u16 = 64;

pub const MOST_LONGEST: u16 = 1500;

pub const MOST_TOTAL: u64 = 1024;

// The line's framing bytes are 0 to 64.
pub const MOST_FRAMING: u8 = 64;

// The formats, and what each means by a longest that is left out.
pub const FIRST_FORMAT: u16 = 1;

pub const SECOND_FORMAT: u16 = 2;

pub const FIRST_DEFAULT: u16 = 1500;

pub const SECOND_DEFAULT: u16 = 576;

// Where the numbers of a field stand, counted from its tag: the value begins behind a tag of one byte and a length of two.
const FORMAT_AT: usize = 3;

const LANE_AT: usize = 3;

const WEIGHT_AT: usize = 4;

const LONGEST_AT: usize = 6;

const FRAMING_AT: usize = 3;

// What the fields so far fix for the next one.
#[derive(Clone, Copy)]
pub struct Seen {
    // The format was read.
    pub begun: bool,
    // The field before was the format: 0x11 may stand here, and nowhere else.
    pub opening: bool,
    // The field before was a lane's: its 0x12 may stand here, and nowhere else.
    pub laned: bool,
    // The setup's format.
    pub format: u16,
    // The line's framing bytes.
    pub framing: u8,
    // The least lane number that rises above those before it.
    pub floor: usize,
    // The weights of the lane fields so far.
    pub total: u64,
    // Lane fields so far.
    pub count: usize,
}

// What is wrong with the numbers of a field. specs/Judge.antt has a table of the number and the place of each.
#[derive(Clone, Copy)]
pub enum Fault {
    BadFormat,
    BadLane,
    BadWeight,
    BadLongest,
    BadFraming,
    // The weights so far are over 1,024.
    TotalOver,
}

pub fn known_format(format: u16) -> bool
    ensures { result ≡ known_format format }
{
    if format == FIRST_FORMAT {
        true
    } else {
        format == SECOND_FORMAT
    }
}

fn default_of(format: u16) -> u16
    ensures { result ≡ default_of format }
{
    if format == FIRST_FORMAT {
        FIRST_DEFAULT
    } else {
        SECOND_DEFAULT
    }
}

// R8.9: where a lane field has no longest, the format says what it means.
pub fn longest_of(format: u16, longest: Option<u16>) -> u16
    ensures { result ≡ longest_of format longest }
{
    let Some(n) = longest else {
        return default_of(format);
    };
    n
}

// Whether a number is in its bounds. It may be wider than they are, as those of a sheet's lines are.
pub fn within(low: u16, high: u16, n: u64) -> bool
    ensures { result ≡ within low high n }
{
    (low as u64) <= n && n <= (high as u64)
}

// Whether a longest is in its numbers; one that is left out is.
fn longest_right(longest: Option<u16>) -> bool
    ensures { result ≡ longest_right longest }
{
    match longest {
        Some(n) => within(LEAST_LONGEST, MOST_LONGEST, n as u64),
        None => true,
    }
}

// Refusal 4 (R14.5): 0x01 twice or not in front, a lane that does not rise, 0x7F without a lane; 0x11 elsewhere than directly behind 0x01, 0x12 elsewhere than
// directly behind the 0x10 of its lane.
fn misplaced(seen: Seen, field: SetupField) -> bool
    ensures { result ≡ misplaced seen field }
{
    match field {
        SetupField::Format(_) => seen.begun,
        SetupField::Lane(l) => {
            if seen.begun {
                (l.lane as usize) < seen.floor
            } else {
                true
            }
        }
        SetupField::Framing(_) => !seen.opening,
        SetupField::Shared(k) => {
            if seen.laned {
                k as usize + 1 != seen.floor
            } else {
                true
            }
        }
        SetupField::End => seen.count == 0,
    }
}

fn lane_outside(l: LaneField) -> Option<Fault>
    ensures { result ≡ lane_outside l }
{
    let longest = l.longest;
    if l.lane > LAST_LANE {
        return Some(Fault::BadLane);
    }
    if !within(LEAST_WEIGHT, MOST_WEIGHT, l.weight as u64) {
        return Some(Fault::BadWeight);
    }
    if !longest_right(longest) {
        return Some(Fault::BadLongest);
    }
    None
}

// Refusals 50 to 54: the first number of a field, in the order of their bytes, that is outside its numbers.
fn outside(field: SetupField) -> Option<Fault>
    ensures { result ≡ outside field }
{
    match field {
        SetupField::Format(n) => {
            if known_format(n) {
                None
            } else {
                Some(Fault::BadFormat)
            }
        }
        SetupField::Lane(l) => lane_outside(l),
        SetupField::Framing(n) => {
            if n > MOST_FRAMING {
                Some(Fault::BadFraming)
            } else {
                None
            }
        }
        SetupField::Shared(_) => None,
        SetupField::End => None,
    }
}

// Refusal 6 (R14.12): more than 1,024 with this field's weight.
fn over(seen: Seen, field: SetupField) -> Option<Fault>
    requires { seen.total ≤ 1024 }
    ensures { result ≡ over seen field }
{
    match field {
        SetupField::Lane(l) => {
            if seen.total + (l.weight as u64) > MOST_TOTAL {
                Some(Fault::TotalOver)
            } else {
                None
            }
        }
        SetupField::Format(_) => None,
        SetupField::Framing(_) => None,
        SetupField::Shared(_) => None,
        SetupField::End => None,
    }
}

// What a fault makes of the field from a place to the next: its refusal; where there is none, the rest decides.
fn faulted(at: usize, next: usize, fault: Option<Fault>) -> Result<(), Refusal>
    requires { at + offset fault ≤ next }
    ensures { (rest : SetupItem) → settled result rest ≡ faulted at fault rest }
{
    match fault {
        None => Ok(()),
        Some(Fault::BadFormat) => Err(Refusal::FormatOutside(at + FORMAT_AT)),
        Some(Fault::BadLane) => Err(Refusal::LaneOutside(at + LANE_AT)),
        Some(Fault::BadWeight) => Err(Refusal::WeightOutside(at + WEIGHT_AT)),
        Some(Fault::BadLongest) => Err(Refusal::LongestOutside(at + LONGEST_AT)),
        Some(Fault::BadFraming) => Err(Refusal::FramingOutside(at + FRAMING_AT)),
        Some(Fault::TotalOver) => Err(Refusal::WeightsOver(at + WEIGHT_AT)),
    }
}

// The field at a place, judged, and the place after it: refusals 1 to 4, 50 to 54 and 6, in the order in a field.
pub fn judged_field(s: &[u8], at: usize, seen: Seen) -> Result<(SetupField, usize), Refusal>
    requires { seen.total ≤ 1024 }
    ensures { setup_item_of result ≡ judged_at seen s.now at }
{
    let (field, next) = crate::reader::field_at(s, at)?;
    if misplaced(seen, field) {
        return Err(Refusal::OutOfOrder(at));
    }
    faulted(at, next, outside(field))?;
    faulted(at, next, over(seen, field))?;
    Ok((field, next))
}

// What a field that was taken adds.
pub fn after(seen: Seen, field: SetupField) -> Seen
    requires { (seen.total ≤ 1024) × (seen.count ≤ 64) }
    ensures { result ≡ seen_after seen field }
{
    match field {
        SetupField::Format(v) => Seen {
            begun: true,
            opening: true,
            laned: false,
            format: v,
            ..seen
        },
        SetupField::Lane(l) => Seen {
            begun: true,
            opening: false,
            laned: true,
            floor: l.lane as usize + 1,
            total: seen.total + l.weight as u64,
            count: seen.count + 1,
            ..seen
        },
        SetupField::Framing(n) => Seen {
            begun: true,
            opening: false,
            laned: false,
            framing: n,
            ..seen
        },
        SetupField::Shared(_) => Seen {
            begun: true,
            opening: false,
            laned: false,
            ..seen
        },
        SetupField::End => seen,
    }
}
