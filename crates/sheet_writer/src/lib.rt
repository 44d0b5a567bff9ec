// The writer of the office's text sheet: a plan within the numbers, with no framing bytes and no shared lane, is written to a lent buffer as
// a line for each of its lanes.
//
// `write_sheet` takes any plan and any buffer. It tests the plan (55), then whether a sheet can say it (82), then the room (56), and only then stores: so
// the buffer stays for a refusal. What it answers and leaves is `WritesSheet` of specs/Write.antt; specs/RoundTrip.antt says that a plan's lanes come back from
// its sheet, and that a sheet that is read comes back as its own bytes (R12.9).
//
// Units: a place is a number of bytes from the first byte of the buffer, a size a number of bytes. The inner functions' `requires` says that the plan was
// tested and that there is room.
#![tactic(auto)]

ghost use Rattle.std.specs.Prelude.{◌≡◌, [], ◌∷◌, ◌++◌, map, ◌+◌, ◌≤◌, ◌<◌, length};
ghost use Rattle.std.proofs.lemmas.List.Edits.{sets};
ghost use Rattle.rules.specs.Setup.{Setup};
ghost use Rattle.plan.specs.Read.{setting_of};
ghost use Rattle.plan_writer.specs.Write.{planned, numbered};
ghost use Rattle.text.specs.Decimal.{decimal};
ghost use Rattle.sheet.specs.Text.{line_bytes, sheet_bytes};
ghost use Rattle.sheet_writer.specs.Write.{WritesSheet};

use plan::{LANES, Lane, Plan};
use plan_writer::{line_framing, shared_lanes, within};
use text::put_number;

const SPACE: u8 = 32;

const LINE_FEED: u8 = 10;

// The two spaces and the line feed of a line.
const STOPS: usize = 3;

// Why nothing was written, each with its number (R14.16, R14.17, R14.21). These have no place.
#[derive(Clone, Copy)]
pub enum Unwritten {
    // The plan is outside the numbers.
    Outside = 55,
    // The plan has framing bytes or a shared lane, which a sheet cannot say.
    NoSheet = 82,
    // The buffer is shorter than the exact size.
    Short = 56,
}

// Writes a number and the byte that ends it, and answers the place behind it.
fn put_figure(a: &mut [u8], at: usize, n: u64, stop: u8) -> usize
    requires { at + length (decimal n) + 1 ≤ length a.old }
    ensures { (a.new ≡ sets a.old at (decimal n ++ stop ∷ [])) × (result ≡ at + length (decimal n) + 1) }
{
    let p = put_number(a, at, n);
    a[p] = stop;
    p + 1
}

// Writes a line, and answers the place behind it.
fn put_line(a: &mut [u8], at: usize, lane: u64, weight: u64, longest: u64) -> usize
    requires { at + length (line_bytes lane weight longest) ≤ length a.old }
    ensures { (a.new ≡ sets a.old at (line_bytes lane weight longest)) × (result ≡ at + length (line_bytes lane weight longest)) }
{
    let p = put_figure(a, at, lane, SPACE);
    let q = put_figure(a, p, weight, SPACE);
    put_figure(a, q, longest, LINE_FEED)
}

// Writes the lines of the lanes that are there.
fn put_lanes(a: &mut [u8], lanes: [Lane; LANES])
    requires { Setup (numbered (map setting_of lanes)) × (length (sheet_bytes (numbered (map setting_of lanes))) ≤ length a.old) }
    ensures { a.new ≡ sets a.old 0 (sheet_bytes (numbered (map setting_of lanes))) }
{
    let mut at = 0;
    for (k, lane) in lanes.iter().enumerate() {
        if lane.weight != 0 {
            at = put_line(a, at, k as u64, lane.weight as u64, lane.longest as u64);
        }
    }
}

// How many digits a number of at most five has.
fn width(n: u64) -> usize
    requires { n < 100000 }
    ensures { (result ≡ length (decimal n)) × (result ≤ 5) }
{
    if n < 10 {
        return 1;
    }
    if n < 100 {
        return 2;
    }
    if n < 1000 {
        return 3;
    }
    if n < 10000 {
        return 4;
    }
    5
}

// How many bytes the sheet has.
fn sheet_size(lanes: [Lane; LANES]) -> usize
    requires { Setup (numbered (map setting_of lanes)) }
    ensures { result ≡ length (sheet_bytes (numbered (map setting_of lanes))) }
{
    let mut n = 0;
    for (k, lane) in lanes.iter().enumerate() {
        if lane.weight != 0 {
            n += width(k as u64) + width(lane.weight as u64) + width(lane.longest as u64) + STOPS;
        }
    }
    n
}

// Writes the sheet of a plan, and answers the exact size: how many bytes were written.
pub fn write_sheet(plan: Plan, buf: &mut [u8]) -> Result<usize, Unwritten>
    ensures { WritesSheet (planned plan) buf.old result buf.new }
{
    if !within(plan) {
        return Err(Unwritten::Outside);
    }
    let lanes = plan.lanes;
    if line_framing(lanes) != 0 {
        return Err(Unwritten::NoSheet);
    }
    if shared_lanes(lanes) != 0 {
        return Err(Unwritten::NoSheet);
    }
    let size = sheet_size(lanes);
    if buf.len() < size {
        return Err(Unwritten::Short);
    }
    put_lanes(buf, lanes);
    Ok(size)
}
