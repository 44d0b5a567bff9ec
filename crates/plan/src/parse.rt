// One field of a setup, taken apart: refusals 1 to 3.
ghost use Rattle.std.specs.Prelude.{◌≡◌, true, false, ◌+◌, ◌≤◌, length};
ghost use Rattle.plan.specs.Fields.{setup_fits, lane_field_at, longest_at, setup_kinds, ends, setup_item_at, setup_item_of};

use fields::Fields;
use rules::Refusal;

pub const FORMAT: u8 = 0x01;

pub const LANE: u8 = 0x10;

pub const FRAMING: u8 = 0x11;

pub const SHARED: u8 = 0x12;

pub const END: u8 = 0x7F;

#[derive(Clone, Copy)]
pub struct LaneField {
    pub lane: u8,
    pub weight: u16,
    // Left out in a field of length 3.
    pub longest: Option<u16>,
}

#[derive(Clone, Copy)]
pub enum SetupField {
    Format(u16),
    Lane(LaneField),
    // The line's framing bytes.
    Framing(u8),
    // The lane that trains share.
    Shared(u8),
    End,
}

fn longest_at(s: &[u8], at: usize, n: usize) -> Option<u16>
    requires { (setup_fits 16 n ≡ true) × (at + n ≤ length s.now) }
    ensures { result ≡ longest_at s.now at n }
{
    if n == 3 {
        return None;
    }
    Some(fields::u16_at(s, at + 3))
}

// R8.9: a lane field's value, a byte of lane, two of weight and two of longest.
fn lane_at(s: &[u8], at: usize, n: usize) -> LaneField
    requires { (setup_fits 16 n ≡ true) × (at + n ≤ length s.now) }
    ensures { result ≡ lane_field_at s.now at n }
{
    LaneField {
        lane: s[at],
        weight: fields::u16_at(s, at + 1),
        longest: longest_at(s, at, n),
    }
}

// What a setup knows of its fields.
pub struct Setups;

impl Fields for Setups {
    type Taken = SetupField;

    ghost kinds = { setup_kinds };

    // R8.5: a setup knows five tags.
    fn known(tag: u8) -> bool {
        matches!(tag, FORMAT | LANE | FRAMING | SHARED | END)
    }

    // Whether a length is right for a tag that is known.
    fn fitting(tag: u8, n: usize) -> bool {
        match tag {
            FORMAT => n == 2,
            LANE => { if n == 3 { true } else { n == 5 } }
            FRAMING => n == 1,
            SHARED => n == 1,
            _ => n == 0,
        }
    }

    fn taken(s: &[u8], tag: u8, at: usize, n: usize) -> SetupField {
        match tag {
            FORMAT => SetupField::Format(fields::u16_at(s, at)),
            LANE => SetupField::Lane(lane_at(s, at, n)),
            FRAMING => SetupField::Framing(s[at]),
            SHARED => SetupField::Shared(s[at]),
            _ => SetupField::End,
        }
    }
}

pub fn ends(field: SetupField) -> bool
    ensures { result ≡ ends field }
{
    matches!(field, SetupField::End)
}

// The field of a setup at a place, and the place after it.
pub fn parsed_field(s: &[u8], at: usize) -> Result<(SetupField, usize), Refusal>
    ensures { setup_item_of result ≡ setup_item_at s.now at }
{
    fields::parsed::<Setups>(s, at)
}
