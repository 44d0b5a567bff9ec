// Fresh tables (R2.4), of a new setup or of the one that a table has (R3.19).
//
// A fresh table is begun with no lane in it and empty slot lists; then each lane of the setup is added. Words of lanes that are not in the setup, places
// of a ring that hold no record, and the words and rings of a group that has no lanes are left as they stand: they mean nothing. So do c and group of an idle
// lane: 0 stands there.
#![tactic(auto)]

ghost use Rattle.std.specs.Prelude.{◌≡◌, [], ℕ, ◌+◌, ◌*◌, ◌<◌, ◌≤◌, get_or};
ghost use Rattle.rules.specs.State.{lane_at, setup_of};
ghost use Rattle.rules.specs.Setup.{InNumbers, Setup};
ghost use Rattle.rules.specs.Calls.{idle};
ghost use Rattle.table.specs.Layout.{Room, cells, framing_word};
ghost use Rattle.table.specs.Means.{meant, Sound, Leaves, with_lane};
ghost use Rattle.fresh.specs.Makes.{Makes, SettingWord, lane_settings, FramedBy, up_to, rested_to};

use plan::Lane;
use slot_lists::empty;
use table::{
    CLOCK, DEPTH, DEPTH_NUMBER, FRAMING, LANES, PRESENT, ROW_WORDS, ROWS, SHARED_UNIT, WEIGHT_UNIT,
    cell, row, set_cell, set_clock, set_row,
};
use units::{Bytes, Clock};
use words::SetBits;

// The setting word of a lane, whatever framing bytes the line has.
fn setting_word(weight: u64, longest: Bytes, shared: bool) -> u64
    requires { (weight ≤ 1024) × (longest.0 ≤ 1500) }
    ensures { (h : ℕ) → InNumbers (record { weight = weight; longest = longest.0; framing = h; shared = shared }) → h ≤ 64 → SettingWord (record { weight = weight; longest = longest.0; framing = h; shared = shared }) result }
{
    let word = longest.0 + WEIGHT_UNIT * weight;
    if shared {
        return word + SHARED_UNIT;
    }
    word
}

// Begins a table with no lane in it, on a line with `h` framing bytes.
pub fn begin(t: &mut [u8], h: Bytes)
    requires { Room t.old }
    ensures { Makes t.old t.new (up_to 0 []) × (get_or (cells t.new) framing_word 0 ≡ h.0) }
{
    set_cell(t, CLOCK, 0);
    set_cell(t, PRESENT, 0);
    set_cell(t, DEPTH_NUMBER, DEPTH);
    set_cell(t, FRAMING, h.0);
    empty(t);
}

// Adds lane `k`, which is not in the setup yet: idle, with F = 0. The line has `h` framing bytes.
pub fn add_lane(t: &mut [u8], k: usize, h: Bytes, weight: u64, longest: Bytes, shared: bool)
    requires { Sound t.old × (k < 64) × InNumbers (record { weight = weight; longest = longest.0; framing = h.0; shared = shared }) × ((lane_at (meant t.old) k).given.weight ≡ 0) × (h.0 ≤ 64) × (get_or (cells t.old) framing_word 0 ≡ h.0) }
    ensures { Leaves t.old t.new (with_lane (meant t.old) k (idle (record { weight = weight; longest = longest.0; framing = h.0; shared = shared }))) × (get_or (cells t.new) framing_word 0 ≡ get_or (cells t.old) framing_word 0) }
{
    let base = ROWS + ROW_WORDS * k;
    set_cell(t, base, setting_word(weight, longest, shared));
    set_cell(t, base + 1, 0);
    set_cell(t, base + 2, 0);
    let lanes = cell(t, PRESENT);
    set_cell(t, PRESENT, (1u64 << (k as u32)) + lanes);
}

// The line's framing bytes, from the first lane that is in the setup: all lanes have the same.
fn line_framing(lanes: [Lane; LANES]) -> Bytes
    requires { Setup (lane_settings lanes) }
    ensures { FramedBy result.0 (lane_settings lanes) }
{
    for g in &lanes {
        if g.weight != 0 {
            return Bytes(g.framing as u64);
        }
    }
    Bytes(0)
}

// Writes the fresh table of a setup.
pub fn write(t: &mut [u8], lanes: [Lane; LANES])
    requires { Room t.old × Setup (lane_settings lanes) }
    ensures { Makes t.old t.new (lane_settings lanes) }
{
    let h = line_framing(lanes);
    begin(t, h);
    for (k, g) in lanes.iter().enumerate() {
        if g.weight != 0 {
            add_lane(t, k, h, g.weight as u64, Bytes(g.longest as u64), g.shared);
        }
    }
}

// Makes lane `k`, which is in the setup, idle with F = 0. What its ring held means nothing any more.
fn rest_lane(t: &mut [u8], k: usize)
    requires { Sound t.old × (k < 64) × (0 < (lane_at (meant t.old) k).given.weight) }
    ensures { Leaves t.old t.new (with_lane (meant t.old) k (idle (lane_at (meant t.old) k).given)) }
{
    let l = row(t, k);
    let never = Clock(0);
    let mut next = l;
    next.time = never;
    next.head = 0;
    next.count = 0;
    set_row(t, k, next);
}

// Makes the lanes of the setup idle with F = 0.
fn rest_lanes(t: &mut [u8])
    requires { Sound t.old }
    ensures { Leaves t.old t.new (rested_to 64 (meant t.old)) }
{
    for k in SetBits(cell(t, PRESENT)) {
        rest_lane(t, k as usize);
    }
}

// R3.19: the table is fresh again, its setup kept.
pub fn renew(t: &mut [u8])
    requires { Sound t.old }
    ensures { Makes t.old t.new (setup_of (meant t.old)) }
{
    rest_lanes(t);
    set_clock(t, Clock(0));
    empty(t);
}
