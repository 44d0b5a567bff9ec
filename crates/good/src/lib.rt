// The good-table test (R6.2). It asks nothing of the bytes: for every slice it answers true exactly if they are a good table
// (`GoodTable`, specs/Table.antt).
//
// One pass over the lanes that are in the setup and the records that they hold; lanes that are not in the setup cost nothing, for the word of
// present lanes is walked by its set bits. Then the slot lists, against the lanes' own words and the word of the lanes that were found to hold records
// (crate `lists_test`).
#![tactic(auto)]

ghost use Rattle.std.specs.Prelude.{ℕ, List, ◌≡◌, true, ◌+◌, ◌^◌, ◌<◌, ◌≤◌, get_or};
ghost use Rattle.table.specs.Layout.{Front, Room, cells, framing_word};
ghost use Rattle.table.specs.Means.{present_at};
ghost use Rattle.rings.specs.Rings.{Long};
ghost use Rattle.lane_test.specs.Says.{Says, LaneFine, LaneGood};
ghost use Rattle.lists_test.specs.Stored.{ListsStored};
ghost use Rattle.rules.specs.State.{lane_depth};
ghost use Rattle.good.specs.Kept.{Kept, today};
ghost use Rattle.good.specs.Pass.{Noted, PassSays};
ghost use Rattle.good.specs.Table.{GoodTable};

use lists_test::lists_good;
use table::{DEPTH, DEPTH_NUMBER, FRAMING, LaneRow, PRESENT, SIZE, cell, clock};
use units::{Clock, rounded_start};
use words::SetBits;

// V stays below 2^62 + 2^44.
const CLOCK_END: u64 = 4611703610613432320;

// The line's framing bytes are 0 to 64.
const MOST_FRAMING: u64 = 64;

// The weights of the lanes seen, the word of those that hold records, and whether one of them is eligible.
#[derive(Clone, Copy)]
pub struct Found {
    pub weights: u64,
    pub held: u64,
    pub eligible: bool,
}

// What is found, once lane `k` with the row `l` is seen too.
pub fn note(f: Found, k: usize, l: LaneRow, v: Clock) -> Found
    requires { (k < 64) × (f.weights + l.weight < 2 ^ 64) × (f.held < 2 ^ k) × (0 < l.count → l.group ≤ 31) }
    ensures { Noted f k l v.0 result }
{
    let weights = f.weights + l.weight;
    if l.count == 0 {
        return Found { weights, ..f };
    }
    let held = (1u64 << (k as u32)) + f.held;
    if rounded_start(l.time, l.group) <= v {
        return Found {
            weights,
            held,
            eligible: true,
        };
    }
    Found { weights, held, ..f }
}

// How a layout keeps its lanes: how the row of one is read, and its test.
pub trait Layout {
    ghost room: { List ℕ → Type 0 };

    ghost depth: { ℕ };

    ghost kept: { (w : List ℕ) → Kept w };

    ghost passes: { ℕ → List ℕ → ℕ → Type 0 };

    fn row(t: &[u8], k: usize) -> LaneRow
        requires { room t.now × (k < 64) }
        ensures { (result ≡ (kept (cells t.now)).row k) × (result.head < depth) × (result.rate.0 < 2 ^ 24) };

    fn lane_good(t: &[u8], k: usize, l: LaneRow, v: Clock) -> bool
        requires { room t.now × (k < 64) × (present_at (cells t.now) k ≡ true) × (l ≡ (kept (cells t.now)).row k) × (l.head < depth) × (l.rate.0 < 2 ^ 24) × (v.0 < 2 ^ 63) × (l.framing.0 ≤ 64) }
        ensures { Says result (passes v.0 (cells t.now) k) };

    ghost fine: { (v : ℕ) (w : List ℕ) (k : ℕ) → passes v w k → LaneFine v ((kept w).row k) ((kept w).lane k) };
}

// Today's layout.
struct Today;

impl Layout for Today {
    ghost room = { Room };

    ghost depth = { lane_depth };

    ghost kept = { today };

    ghost passes = { LaneGood };

    ghost fine = { λ v w k g. g.fine };

    fn row(t: &[u8], k: usize) -> LaneRow {
        table::row(t, k)
    }

    fn lane_good(t: &[u8], k: usize, l: LaneRow, v: Clock) -> bool {
        lane_test::lane_good(t, k, l, v)
    }
}

// The pass over the lanes of the setup: what it found, or none where a lane is not good.
pub fn lanes_good<L: Layout>(t: &[u8], v: Clock) -> Option<Found>
    requires { Front t.now × L.room t.now × (v.0 < 2 ^ 63) × (get_or (cells t.now) framing_word 0 ≤ 64) }
    ensures { PassSays v.0 (cells t.now) (L.kept (cells t.now)).lane (L.passes v.0 (cells t.now)) result }
{
    let mut found = Found {
        weights: 0,
        held: 0,
        eligible: false,
    };
    for lane in SetBits(cell(t, PRESENT)) {
        let k = lane as usize;
        let l = L::row(t, k);
        let good = L::lane_good(t, k, l, v);
        if !good {
            return None;
        }
        found = note(found, k, l, v);
    }
    Some(found)
}

// Whether a lane is eligible, if any holds records.
fn live_good(f: Found) -> bool
    ensures { Says result (0 < f.held → f.eligible ≡ true) }
{
    if f.held == 0 {
        return true;
    }
    f.eligible
}

// Whether what the pass found makes a good table: a setup (R6.3), an eligible lane where one is due (R6.8), and slot lists of the lanes that hold records.
pub fn found_good(t: &[u8], f: Found) -> bool
    requires { Long t.now }
    ensures { Says result ((0 < f.weights) × (f.weights ≤ 1024) × (0 < f.held → f.eligible ≡ true) × ListsStored t.now f.held) }
{
    if f.weights < 1 {
        return false;
    }
    if f.weights > 1024 {
        return false;
    }
    let live = live_good(f);
    if !live {
        return false;
    }
    let listed = lists_good(t, f.held);
    if !listed {
        return false;
    }
    true
}

// Whether the bytes are a good table.
pub fn good(t: &[u8]) -> bool
    ensures { Says result (GoodTable t.now) }
{
    if t.len() < SIZE {
        return false;
    }
    let v = clock(t);
    if v >= Clock(CLOCK_END) {
        return false;
    }
    // Numbers of the whole table, so they are tested once, before the lanes.
    if cell(t, DEPTH_NUMBER) != DEPTH {
        return false;
    }
    if cell(t, FRAMING) > MOST_FRAMING {
        return false;
    }
    match lanes_good::<Today>(t, v) {
        None => false,
        Some(f) => found_good(t, f),
    }
}
