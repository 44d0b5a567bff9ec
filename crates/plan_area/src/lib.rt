// A plan in lent bytes, for a host that edits one: the depot tool's side of the setup reader and writer.
//
// A plan area is 65 words of 64 bits, low byte first, 520 bytes. Word 0 is format + 2^16 framing bytes; word k + 1 is lane k's weight + 2^16 longest, with 2^32
// where trains share it, and 0 where there is no such lane. Any words may be lent: those that are no plan within the numbers are refused by 55 when they are written as a setup.
//
//   read_setup    a setup read into an area
//   write_setup   the plan of an area written as a setup
//
// Both take any bytes and areas of any length. What they answer and leave is `ReadStep` and `WriteStep` of specs/Step.antt; bytes past an area's 520 are
// never touched. The other functions are inner ones: a `requires` says that the area is long enough.
#![tactic(auto)]

ghost use Rattle.std.specs.Prelude.{◌≡◌, ◌*◌, ◌≤◌, ◌<◌, length, drop};
ghost use Rattle.rules.specs.Setup.{Setup};
ghost use Rattle.plan.specs.Read.{setting_of, settings};
ghost use Rattle.plan_writer.specs.Write.{planned};
ghost use Rattle.plan_area.specs.Area.{AreaRoom, format_in, longest_in, setting_in, plan_in, fitted, narrowed, Gives, shared_part, plan_lane_word, ShowsPlan};
ghost use Rattle.plan_area.specs.Step.{ReadStep, WriteStep};

use plan::{LANES, Lane, Plan};
use plan_writer::Unwritten;
use rules::Refusal;
use words::{set_word, word};

// The fixed size of a plan area, in bytes.
pub const SIZE: usize = 520;

// The places of a word's second number, and of the mark of a shared lane.
const UNIT: u64 = 65536;

const SHARED_UNIT: u64 = 4294967296;

// The greatest longest and the greatest framing number that a plan has room for. Both are outside the numbers.
const MOST_LONGEST: u64 = 65535;

const MOST_FRAMING: u64 = 255;

fn longest_in(w: u64) -> u64
    ensures { result ≡ longest_in w }
{
    if w / SHARED_UNIT == 1 {
        return w / UNIT - UNIT;
    }
    w / UNIT
}

// What a plan has of a number that may be too great for it.
fn fitted(most: u64, n: u64) -> u64
    ensures { (result ≡ fitted most n) × (result ≤ most) }
{
    n.min(most)
}

// The lane of a word, on a line with `h` framing bytes.
fn lane_in(w: u64, h: u64) -> Lane
    ensures { setting_of result ≡ narrowed (setting_in h w) }
{
    let weight = (w % UNIT) as u16;
    let longest = fitted(MOST_LONGEST, longest_in(w)) as u16;
    let shared = w / SHARED_UNIT == 1;
    if weight == 0 {
        return Lane {
            weight,
            longest,
            framing: 0,
            shared,
        };
    }
    let framing = fitted(MOST_FRAMING, h) as u8;
    Lane {
        weight,
        longest,
        framing,
        shared,
    }
}

fn format_in(area: &[u8]) -> u16
    requires { AreaRoom area.now }
    ensures { result ≡ format_in area.now }
{
    (word(area, 0) % UNIT) as u16
}

// The plan of an area, in or out of the numbers: whole where it is within them, and outside them where it is not.
pub fn plan_in(area: &[u8]) -> Plan
    requires { AreaRoom area.now }
    ensures { Gives (plan_in area.now) (planned result) × (length (settings result) ≡ 64) }
{
    let format = format_in(area);
    let h = word(area, 0) / UNIT;
    let mut lanes = plan::no_lanes();
    let mut count = 0usize;
    for k in 0..LANES {
        let l = lane_in(word(area, k + 1), h);
        lanes[k] = l;
        if l.weight != 0 {
            count += 1;
        }
    }
    Plan {
        format,
        lanes,
        count,
    }
}

fn shared_part(shared: bool) -> u64
    ensures { result ≡ shared_part shared }
{
    if shared { SHARED_UNIT } else { 0 }
}

fn lane_word(l: Lane) -> u64
    ensures { result ≡ plan_lane_word (setting_of l) }
{
    l.weight as u64 + UNIT * (l.longest as u64) + shared_part(l.shared)
}

// Stores a plan that was read.
pub fn store(area: &mut [u8], plan: Plan)
    requires { AreaRoom area.old × Setup (settings plan) × (plan.format ≤ 2) }
    ensures { ShowsPlan (record { format = plan.format; lanes = settings plan; count = plan.count }) area.new × (drop (65 * 8) area.new ≡ drop (65 * 8) area.old) }
{
    let format = plan.format as u64;
    let lanes = plan.lanes;
    let h = plan_writer::line_framing(lanes) as u64;
    set_word(area, 0, format + UNIT * h);
    for (k, l) in lanes.iter().enumerate() {
        set_word(area, k + 1, lane_word(*l));
    }
}

// Reads a setup into an area: how many lanes it has, or a refusal with its place.
pub fn read_setup(setup: &[u8], area: &mut [u8]) -> Result<usize, Refusal>
    ensures { ReadStep setup.now area.old result area.new }
{
    if area.len() < SIZE {
        return Err(Refusal::TableShort);
    }
    let r = plan::read_setup(setup)?;
    store(area, r.plan);
    Ok(r.plan.count)
}

// Writes the plan of an area as the bytes of a setup. Bytes that are no area are outside the numbers.
pub fn write_setup(area: &[u8], buf: &mut [u8]) -> Result<usize, Unwritten>
    ensures { WriteStep area.now buf.old result buf.new }
{
    if area.len() < SIZE {
        return Err(Unwritten::Outside);
    }
    plan_writer::write_setup(plan_in(area), buf)
}
