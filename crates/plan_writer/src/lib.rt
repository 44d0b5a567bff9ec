// The setup writer (R9.2 to R9.4). A plan within the numbers is written to a lent buffer as the bytes of a setup: 0x01 with its format, 0x11 where the line has
// framing bytes, a field of five bytes for each lane, with 0x12 behind it where trains share the lane, 0x7F.
//
// `write_setup` takes any plan and any buffer. It tests the plan (55), then the room (56), and only then stores: so the buffer stays for a refusal. What it
// answers and leaves is `Writes` of specs/Write.antt; specs/RoundTrip.antt says that a plan comes back from its bytes (R9.5), and a setup in that form
// as its own bytes (R9.6). Tags, lanes and numbers are those of the reader, crate `plan`.
//
// Units: a place is a number of bytes from the first byte of the buffer, a size a number of bytes. The inner functions' `requires` says that the plan
// was tested and that there is room.
#![tactic(auto)]

ghost use Rattle.std.specs.Prelude.{◌≡◌, false, map, ℕ, ◌+◌, ◌*◌, ◌<◌, ◌≤◌, length};
ghost use Rattle.std.proofs.lemmas.List.Edits.{sets};
ghost use Rattle.rules.specs.State.{setting_at};
ghost use Rattle.rules.specs.Setup.{framing_of};
ghost use Rattle.plan.specs.Read.{setting_of};
ghost use Rattle.plan.specs.Accepted.{setup_fields, present};
ghost use Rattle.plan.specs.declared.parse.SetupField.TheVariants.{Format, Framing, Shared, End};
ghost use Rattle.plan_writer.specs.Format.{field_bytes, bytes_of};
ghost use Rattle.plan_writer.specs.Write.{planned, numbered, Within, Either, Fitting, Tells, unless_zero, lane_fields, own_bytes, lane_bytes, lane_size, lanes_bytes, shareds, framing_bytes, framing_size, Writes};

use plan::judge::{
    LEAST_LONGEST, MOST_FRAMING, MOST_LONGEST, MOST_TOTAL, MOST_WEIGHT, known_format,
};
use plan::parse::{END, FORMAT, FRAMING, LANE, SHARED};
use plan::{LANES, Lane, Plan};

// Of no framing bytes 0x11 is left out.
const NO_FRAMING: u8 = 0;

// The bytes of 0x01 and of 0x7F together, of 0x11, of a lane's field, and of 0x12.
const ENDS_SIZE: usize = 8;

const FRAMING_SIZE: usize = 4;

const LANE_SIZE: usize = 8;

const SHARED_SIZE: usize = 4;

// Why nothing was written, each with its number (R14.16, R14.17). These two have no place.
#[derive(Clone, Copy)]
pub enum Unwritten {
    // The plan is outside the numbers.
    Outside = 55,
    // The buffer is shorter than the exact size.
    Short = 56,
}

// The greatest of the lanes' framing numbers. In a plan within the numbers every lane that is there has it.
pub fn line_framing(lanes: [Lane; LANES]) -> u8
    ensures { result ≡ framing_of (numbered (map setting_of lanes)) }
{
    let mut h = 0u8;
    for l in &lanes {
        if h < l.framing {
            h = l.framing;
        }
    }
    h
}

// How many lanes trains share.
pub fn shared_lanes(lanes: [Lane; LANES]) -> usize
    ensures { (result ≡ shareds (numbered (map setting_of lanes))) × (result ≤ 64) }
{
    lanes.iter().filter(|l| l.shared).count()
}

// A lane that is in the numbers, on a line with `h` framing bytes, or not there.
fn lane_within(l: Lane, h: u8) -> bool
    ensures { Tells result (Fitting h (setting_of l)) }
{
    let weight = l.weight;
    let longest = l.longest;
    let framing = l.framing;
    if weight == 0 {
        if longest != 0 {
            return false;
        }
        if framing != 0 {
            return false;
        }
        return !l.shared;
    }
    if MOST_WEIGHT < weight {
        return false;
    }
    if longest < LEAST_LONGEST {
        return false;
    }
    if MOST_LONGEST < longest {
        return false;
    }
    framing == h
}

// Whether a plan is within the numbers.
pub fn within(plan: Plan) -> bool
    ensures { Tells result (Within (planned plan)) }
{
    if !known_format(plan.format) {
        return false;
    }
    let lanes = plan.lanes;
    let h = line_framing(lanes);
    if MOST_FRAMING < h {
        return false;
    }
    let mut total = 0u64;
    let mut there = 0usize;
    for l in lanes {
        if !lane_within(l, h) {
            return false;
        }
        if l.weight != 0 {
            total += l.weight as u64;
            there += 1;
        }
    }
    if total == 0 {
        return false;
    }
    if MOST_TOTAL < total {
        return false;
    }
    there == plan.count
}

// 0x01 with a format.
fn put_format(a: &mut [u8], format: u16)
    requires { 5 ≤ length a.old }
    ensures { a.new ≡ sets a.old 0 (field_bytes (Format format)) }
{
    a[0] = FORMAT;
    a[1] = 0;
    a[2] = 2;
    a[3] = (format / 256) as u8;
    a[4] = (format % 256) as u8;
}

// 0x11 with the line's framing bytes.
fn put_framing_field(a: &mut [u8], at: usize, h: u8)
    requires { (at + 4 ≤ length a.old) × (h ≤ 64) }
    ensures { a.new ≡ sets a.old at (field_bytes (Framing h)) }
{
    a[at] = FRAMING;
    a[at + 1] = 0;
    a[at + 2] = 1;
    a[at + 3] = h;
}

// Writes 0x11 where the line has framing bytes, and answers the place behind it.
fn put_framing(a: &mut [u8], at: usize, h: u8) -> usize
    requires { (at + framing_size h ≤ length a.old) × (h ≤ 64) }
    ensures { (a.new ≡ sets a.old at (framing_bytes h)) × (result ≡ at + framing_size h) }
{
    if h == NO_FRAMING {
        return at;
    }
    put_framing_field(a, at, h);
    at + FRAMING_SIZE
}

// Writes 0x10 of lane `k`, its longest written out.
fn put_lane(a: &mut [u8], at: usize, k: usize, weight: u16, longest: u16)
    requires { (at + 8 ≤ length a.old) × (k < 64) × (weight ≤ 1024) × (longest ≤ 1500) }
    ensures { a.new ≡ sets a.old at (own_bytes k (record { weight = weight; longest = longest; framing = 0; shared = false })) }
{
    a[at] = LANE;
    a[at + 1] = 0;
    a[at + 2] = 5;
    a[at + 3] = k as u8;
    a[at + 4] = (weight / 256) as u8;
    a[at + 5] = (weight % 256) as u8;
    a[at + 6] = (longest / 256) as u8;
    a[at + 7] = (longest % 256) as u8;
}

// Writes 0x12 of lane `k`.
fn put_shared(a: &mut [u8], at: usize, k: usize)
    requires { (at + 4 ≤ length a.old) × (k < 64) }
    ensures { a.new ≡ sets a.old at (field_bytes (Shared k)) }
{
    a[at] = SHARED;
    a[at + 1] = 0;
    a[at + 2] = 1;
    a[at + 3] = k as u8;
}

// Writes the fields of lane `k`, and answers the place behind them.
fn put_fields(a: &mut [u8], at: usize, k: usize, l: Lane) -> usize
    requires { (at + lane_size (setting_of l) ≤ length a.old) × (k < 64) × (l.weight ≤ 1024) × (l.longest ≤ 1500) }
    ensures { (a.new ≡ sets a.old at (lane_bytes k (setting_of l))) × (result ≡ at + lane_size (setting_of l)) }
{
    put_lane(a, at, k, l.weight, l.longest);
    if l.shared {
        put_shared(a, at + LANE_SIZE, k);
        return at + LANE_SIZE + SHARED_SIZE;
    }
    at + LANE_SIZE
}

// Writes the fields of the lanes that are there, in order, and answers the place behind them.
fn put_lanes(a: &mut [u8], at: usize, lanes: [Lane; LANES]) -> usize
    requires { ((k : ℕ) → Either (setting_at (numbered (map setting_of lanes)) k)) × (at + length (lanes_bytes 0 (numbered (map setting_of lanes))) ≤ length a.old) }
    ensures { (a.new ≡ sets a.old at (lanes_bytes 0 (numbered (map setting_of lanes)))) × (result ≡ at + length (lanes_bytes 0 (numbered (map setting_of lanes)))) }
{
    let mut p = at;
    for (k, l) in lanes.iter().enumerate() {
        if l.weight != 0 {
            p = put_fields(a, p, k, *l);
        }
    }
    p
}

// 0x7F, which is empty.
fn put_end(a: &mut [u8], at: usize)
    requires { at + 3 ≤ length a.old }
    ensures { a.new ≡ sets a.old at (field_bytes End) }
{
    a[at] = END;
    a[at + 1] = 0;
    a[at + 2] = 0;
}

// Writes the setup of a plan's lanes in a format, on a line with `h` framing bytes.
fn put_setup(a: &mut [u8], format: u16, h: u8, lanes: [Lane; LANES])
    requires { ((k : ℕ) → Fitting h (setting_at (numbered (map setting_of lanes)) k)) × (h ≤ 64) × (8 + framing_size h + 8 * present (numbered (map setting_of lanes)) + 4 * shareds (numbered (map setting_of lanes)) ≤ length a.old) }
    ensures { a.new ≡ sets a.old 0 (bytes_of (setup_fields format (unless_zero h) (lane_fields 0 (numbered (map setting_of lanes))))) }
{
    put_format(a, format);
    let first = put_framing(a, 5, h);
    let next = put_lanes(a, first, lanes);
    put_end(a, next);
}

fn framing_size(h: u8) -> usize
    ensures { result ≡ framing_size h }
{
    if h == NO_FRAMING { 0 } else { FRAMING_SIZE }
}

// Writes a plan as the bytes of a setup, and answers the exact size: how many bytes were written.
pub fn write_setup(plan: Plan, buf: &mut [u8]) -> Result<usize, Unwritten>
    ensures { Writes (planned plan) buf.old result buf.new }
{
    if !within(plan) {
        return Err(Unwritten::Outside);
    }
    let lanes = plan.lanes;
    let h = line_framing(lanes);
    let size = ENDS_SIZE
        + framing_size(h)
        + LANE_SIZE * plan.count
        + SHARED_SIZE * shared_lanes(lanes);
    if buf.len() < size {
        return Err(Unwritten::Short);
    }
    put_setup(buf, plan.format, h, lanes);
    Ok(size)
}
