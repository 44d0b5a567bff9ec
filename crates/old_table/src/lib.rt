// Tables made while a lane had room for 16 records: how they are read, and their good-table test. Nothing here writes.
//
// The layout is that of docs/TABLE.md as it stood then (docs/RULES.md, R7): 45,056 bytes. It differs from today's in the rows' ring word, which counts by
// 16, in the records, one word each, in that there is no depth number, and in that no lane is shared, so c has the top bit of the setting word too. All
// else stands where it stands today, and is read and tested by the same functions. The test asks nothing of the bytes: for every slice it answers true
// exactly if they are a good table of that time (`OldTable`, specs/Old.antt).
#![tactic(auto)]

ghost use Rattle.std.specs.Prelude.{◌≡◌, true, ◌^◌, ◌<◌, ◌≤◌};
ghost use Rattle.rules.specs.Older.{old_depth};
ghost use Rattle.rounds.specs.Good.{Lengths};
ghost use Rattle.table.specs.Layout.{Front, cells};
ghost use Rattle.table.specs.Means.{present_at};
ghost use Rattle.lane_test.specs.Says.{Says};
ghost use Rattle.old_table.specs.Old.{old_row_at, old_entry_at, old_ring, OldTable};
ghost use Rattle.old_table.specs.Kept.{old};
ghost use Rattle.old_table.specs.Tested.{OldLaneGood};

use good::{Layout, found_good, lanes_good};
use lane_test::{numbers_good, pace_good, time_good};
use rings::END;
use table::{CLOCK, Entry, FRAMING, LENGTHS, LaneRow, RATE_UNIT, ROW_WORDS, ROWS, cell};
use units::{Bytes, Clock, Rate};

// The fixed size of such a table, in bytes: 45,056, where the slot lists end.
pub const SIZE: usize = END;

// Each lane held at most 16 records.
pub const DEPTH: u64 = 16;

// The first word of the records, and the words of a lane's.
const RECORDS: usize = LENGTHS;

const PLACES: usize = DEPTH as usize;

// 2^32: where the length of a record begins.
const LENGTH_UNIT: u64 = 4294967296;

// V stayed below 2^62 + 2^42.
const CLOCK_END: u64 = 4611690416473899008;

// The line's framing bytes are 0 to 64.
const MOST_FRAMING: u64 = 64;

// Lane `k`'s words, taken apart, with the line's framing bytes.
pub fn row(t: &[u8], k: usize) -> LaneRow
    requires { Front t.now × (k < 64) }
    ensures { (result ≡ old_row_at (cells t.now) k) × (result.head < old_depth) × (result.rate.0 < 2 ^ 24) }
{
    let base = ROWS + ROW_WORDS * k;
    let setting = cell(t, base);
    let ring = cell(t, base + 2);
    let mut l = table::row(t, k);
    let rate = Rate(setting / RATE_UNIT);
    l.rate = rate;
    l.shared = false;
    l.head = ring % DEPTH;
    l.count = ring / DEPTH;
    l
}

// The record at place `i` of lane `k`'s ring, `i` counted on past the ring's end.
pub fn record_at(t: &[u8], k: usize, i: u64) -> Entry
    requires { Front t.now × (k < 64) }
    ensures { result ≡ old_entry_at (cells t.now) k i }
{
    let x = cell(t, RECORDS + PLACES * k + (i % DEPTH) as usize);
    Entry {
        mark: (x % LENGTH_UNIT) as u32,
        length: Bytes(x / LENGTH_UNIT),
    }
}

// Whether each record of a lane's queue has a length of 1 to the lane's longest.
fn lengths_good(t: &[u8], k: usize, l: LaneRow) -> bool
    requires { Front t.now × (k < 64) × (l.head < old_depth) × (l.count ≤ old_depth) }
    ensures { Says result (Lengths l.longest.0 (old_ring (cells t.now) k l.head l.count)) }
{
    let head = l.head;
    let count = l.count;
    let longest = l.longest.0;
    for i in 0..count {
        let length = record_at(t, k, head + i).length.0;
        if length < 1 {
            return false;
        }
        if length > longest {
            return false;
        }
    }
    true
}

// Whether lane `k`, which is in the setup and has the row `l`, is good.
fn lane_good(t: &[u8], k: usize, l: LaneRow, v: Clock) -> bool
    requires { Front t.now × (k < 64) × (present_at (cells t.now) k ≡ true) × (l ≡ old_row_at (cells t.now) k) × (l.head < old_depth) × (l.rate.0 < 2 ^ 24) × (v.0 < 2 ^ 63) × (l.framing.0 ≤ 64) }
    ensures { Says result (OldLaneGood v.0 (cells t.now) k) }
{
    let agrees = numbers_good(l);
    if !agrees {
        return false;
    }
    // c and the group were asked of idle lanes too
    let paced = pace_good(l);
    if !paced {
        return false;
    }
    if l.count > DEPTH {
        return false;
    }
    let timed = time_good(l, v);
    if !timed {
        return false;
    }
    let lengths = lengths_good(t, k, l);
    if !lengths {
        return false;
    }
    true
}

// The layout of that time.
struct Older;

impl Layout for Older {
    ghost room = { Front };

    ghost depth = { old_depth };

    ghost kept = { old };

    ghost passes = { OldLaneGood };

    ghost fine = { λ v w k g. g.fine };

    fn row(t: &[u8], k: usize) -> LaneRow {
        row(t, k)
    }

    fn lane_good(t: &[u8], k: usize, l: LaneRow, v: Clock) -> bool {
        lane_good(t, k, l, v)
    }
}

// Whether the bytes are a good table of that time.
pub fn good(t: &[u8]) -> bool
    ensures { Says result (OldTable t.now) }
{
    if t.len() < SIZE {
        return false;
    }
    let v = Clock(cell(t, CLOCK));
    if v >= Clock(CLOCK_END) {
        return false;
    }
    if cell(t, FRAMING) > MOST_FRAMING {
        return false;
    }
    match lanes_good::<Older>(t, v) {
        None => false,
        Some(f) => found_good(t, f),
    }
}
