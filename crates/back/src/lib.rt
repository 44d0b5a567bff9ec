// The clock is taken back (R5.1, R5.2): where V has reached 2^61, a put takes K off V and off every S and F before it is done.
//
// A lane has one clock word, S while it holds records and F while it is idle, so one loop over the present lanes does both: a word that is below K becomes 0,
// which of a good table happens to an idle lane's F only. The groups' starts go along. The slot lists are numbered by the endless clock, so no lane moves to
// another list.
//
// Units: times are `Clock`. These are inner functions: a `requires` says what the crates above keep.
#![tactic(auto)]

ghost use Rattle.std.specs.Prelude.{ℕ, ◌<◌};
ghost use Rattle.rules.specs.State.{lane_at};
ghost use Rattle.rules.specs.Calls.{lowered};
ghost use Rattle.table.specs.Means.{meant, Sound, Leaves, with_lane};
ghost use Rattle.choice.specs.Known.{Known};
ghost use Rattle.back.specs.Back.{NotBelow, lowered_to, TakesBack};

use slot_lists::{earlier_by, lower};
use table::{PRESENT, ROW_WORDS, ROWS, cell, clock, set_cell, set_clock};
use units::Clock;
use words::SetBits;

// V from which on a put takes the clock back: 2^61.
const FAR: u64 = 2305843009213693952;

// What stays of V at least: 2^33.
const KEPT: u64 = 8589934592;

// It is taken back by a multiple of 2^31, the greatest slot.
const STEP: u64 = 2147483648;

// Takes `d` off lane `k`'s clock word.
fn lower_lane(t: &mut [u8], k: usize, d: Clock)
    requires { Sound t.old × (k < 64) × (0 < (lane_at (meant t.old) k).given.weight) × NotBelow d.0 (lane_at (meant t.old) k) }
    ensures { Leaves t.old t.new (with_lane (meant t.old) k (lowered d.0 (lane_at (meant t.old) k))) }
{
    let at = ROWS + ROW_WORDS * k + 1;
    let time = cell(t, at);
    set_cell(t, at, earlier_by(time, d.0));
}

// Takes `d` off the clock words of the lanes in the setup.
fn lower_lanes(t: &mut [u8], d: Clock)
    requires { Sound t.old × ((k : ℕ) → NotBelow d.0 (lane_at (meant t.old) k)) }
    ensures { Leaves t.old t.new (lowered_to 64 d.0 (meant t.old)) }
{
    for k in SetBits(cell(t, PRESENT)) {
        lower_lane(t, k as usize, d);
    }
}

// Takes the clock back where it is far on: by the K of R5.1.
pub fn take_back(t: &mut [u8])
    requires { Known t.old }
    ensures { TakesBack t.old t.new }
{
    let v = clock(t);
    if v < Clock(FAR) {
        return;
    }
    let d = Clock((v.0 - KEPT) / STEP * STEP);
    lower_lanes(t, d);
    set_clock(t, v - d);
    lower(t, d.0);
}
