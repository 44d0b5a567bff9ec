// The lent table: a state of `rules` in 65,536 lent bytes (docs/TABLE.md). This crate reads and stores its cells: the clock, the lanes' rows and their
// records' lengths, 1,360 words, and behind the slot lists the records' marks and the numbers of the shared lanes' trains (crate `turns`). By the slot
// lists a table has its tie order: crates `slot_lists` and `filing`.
//
// Three views, each over the one below: bytes; words (`cells`), where a store is one `set`; and the state that they mean (`meant`,
// specs/Means.antt). `Encodes` (specs/Encodes.antt) says when bytes encode a state. Queues, fresh tables and the good-table test are in
// the crates beside this one: `queue`, `fresh`, `good`.
//
// Units: lengths are `Bytes`, times are `Clock`, c is a `Rate`. These are inner functions: a `requires` says what the crates above keep.
#![tactic(auto)]

ghost use Rattle.std.specs.Prelude.{◌≡◌, ◌+◌, ◌*◌, ◌^◌, ◌<◌, ◌≤◌, get_or, set};
ghost use Rattle.table.specs.Layout.{Room, Front, marks_cell, lengths_cell, length_words, trains_cell, Now, cells, row_at, put_row, put_pace, put_ring, entry_at, put_entry, place_in_lane, clear_cells, round_word, round_at, train_number, put_train};
ghost use Rattle.rules.specs.State.{charge, lane_depth};
ghost use Rattle.table.specs.Means.{present_at, given_of, meant, RowAgrees, Paces, Sound, Leaves, with_clock};

use digits::{half, quarter, set_half, set_quarter};
use parts::{PLACES, TRAINS};
use rings::END;
use units::{Bytes, Clock, Rate, group_index, lane_charge, lane_rate};
use words::{set_word, word};

// Lanes, and the room of each.
pub const LANES: usize = parts::LANES;

pub const DEPTH: u64 = parts::DEPTH;

// The words of the clock, of the present lanes, of the depth, of the line's framing bytes, and the first ones of the rows, the lengths and the marks.
pub const CLOCK: usize = 0;

pub const PRESENT: usize = 1;

pub const DEPTH_NUMBER: usize = 3;

pub const FRAMING: usize = 4;

pub const ROWS: usize = parts::ROWS;

pub const LENGTHS: usize = parts::LENGTHS;

const MARKS: usize = END / 8;

// The first word of the trains' numbers, two in a word as the marks are.
pub const TRAIN_NUMBERS: usize = MARKS + LANES * PLACES / 2;

// Words of a row, and of the lengths of a lane's places, four in a word.
pub const ROW_WORDS: usize = 4;

pub const LENGTH_WORDS: usize = PLACES / 4;

// Words of the numbers of a lane's trains, two in a word.
pub const TRAIN_WORDS: usize = TRAINS / 2;

// The size of a table's core, in bytes: 63,488. Inner calls know no byte behind it.
pub const SIZE: usize = END + 4 * LANES * PLACES + 4 * LANES * TRAINS;

// Bytes behind the core: the last edition and a waiting page (crate `editions`), and room for what is to come (docs/TABLE.md).
const PAGE_BYTES: usize = 2048;

// The fixed size of a table, in bytes: 65,536.
pub const TABLE_SIZE: usize = SIZE + PAGE_BYTES;

// Where weight, group and c begin in a setting word, after longest.
pub const WEIGHT_UNIT: u64 = 65536;

pub const GROUP_UNIT: u64 = 4294967296;

pub const RATE_UNIT: u64 = 1099511627776;

// The top bit says that several trains share the lane.
pub const SHARED_UNIT: u64 = 9223372036854775808;

// Longest and weight have 2^16 values, a group 2^8, c 2^23.
const PART: u64 = 65536;

const GROUPS: u64 = 256;

const RATES: u64 = 8388608;

// A lane as the table keeps it: its setting, the line's framing bytes, its one clock word (S while it holds records, F while it is idle), and its ring. A
// shared lane has a ring for each train instead: its count is that of all its records, and its head means nothing. While the lane is idle, c and the group
// mean nothing.
#[derive(Clone, Copy)]
pub struct LaneRow {
    pub longest: Bytes,
    pub framing: Bytes,
    pub weight: u64,
    pub group: u32,
    pub rate: Rate,
    pub shared: bool,
    pub time: Clock,
    pub head: u64,
    pub count: u64,
}

// c and the group of a lane.
#[derive(Clone, Copy)]
pub struct Pace {
    pub rate: Rate,
    pub group: u32,
}

// A record in a lane's ring.
#[derive(Clone, Copy)]
pub struct Entry {
    pub mark: u32,
    pub length: Bytes,
}

// Word `i` of the table, one before the slot lists.
pub fn cell(t: &[u8], i: usize) -> u64
    requires { Front t.now × (i < marks_cell) }
    ensures { result ≡ get_or (cells t.now) i 0 }
{
    word(t, i)
}

// Changes word `i` of the table.
pub fn set_cell(t: &mut [u8], i: usize, v: u64)
    requires { Room t.old × (i < marks_cell) }
    ensures { Now t.old t.new (set (cells t.old) i v) }
{
    set_word(t, i, v);
}

// Lane `k`'s words, taken apart, with the line's framing bytes.
pub fn row(t: &[u8], k: usize) -> LaneRow
    requires { Front t.now × (k < 64) }
    ensures { (result ≡ row_at (cells t.now) k) × (result.head < lane_depth) × (result.rate.0 < 2 ^ 23) }
{
    let base = ROWS + ROW_WORDS * k;
    let setting = cell(t, base);
    let time = cell(t, base + 1);
    let ring = cell(t, base + 2);
    let framing = cell(t, FRAMING);
    LaneRow {
        longest: Bytes(setting % PART),
        framing: Bytes(framing),
        weight: setting / WEIGHT_UNIT % PART,
        group: (setting / GROUP_UNIT % GROUPS) as u32,
        rate: Rate(setting / RATE_UNIT % RATES),
        shared: setting / SHARED_UNIT == 1,
        time: Clock(time),
        head: ring % DEPTH,
        count: ring / DEPTH,
    }
}

// Stores lane `k`'s clock word and ring. Its setting stays as the setup gave it.
pub fn set_row(t: &mut [u8], k: usize, l: LaneRow)
    requires { Room t.old × (k < 64) × (l.head < lane_depth) × (l.count ≤ lane_depth) }
    ensures { Now t.old t.new (put_row (cells t.old) k l) }
{
    let base = ROWS + ROW_WORDS * k;
    set_cell(t, base + 1, l.time.0);
    set_cell(t, base + 2, l.head + DEPTH * l.count);
}

// Stores lane `k`'s c and group. The rest of its setting word stays.
pub fn set_pace(t: &mut [u8], k: usize, p: Pace)
    requires { Room t.old × (k < 64) × (p.rate.0 < 2 ^ 23) × (p.group < 2 ^ 8) }
    ensures { Now t.old t.new (put_pace (cells t.old) k p.rate.0 p.group) }
{
    let base = ROWS + ROW_WORDS * k;
    let setting = cell(t, base);
    let kept = setting % GROUP_UNIT;
    let top = SHARED_UNIT * (setting / SHARED_UNIT);
    set_cell(
        t,
        base,
        kept + GROUP_UNIT * (p.group as u64) + RATE_UNIT * p.rate.0 + top,
    );
}

// Stores lane `k`'s ring alone.
pub fn set_ring(t: &mut [u8], k: usize, head: u64, count: u64)
    requires { Room t.old × (k < 64) × (head < lane_depth) × (count ≤ lane_depth) }
    ensures { Now t.old t.new (put_ring (cells t.old) k head count) }
{
    set_cell(t, ROWS + ROW_WORDS * k + 2, head + DEPTH * count);
}

// The record at place `i` of lane `k`'s ring, `i` counted on past the ring's end.
pub fn record_at(t: &[u8], k: usize, i: u64) -> Entry
    requires { Room t.now × (k < 64) }
    ensures { (result ≡ entry_at (cells t.now) (place_in_lane k i)) × (result.length.0 ≤ 2 ^ 16) }
{
    let place = PLACES * k + (i % DEPTH) as usize;
    let length = quarter(t, 4 * LENGTHS + place) + 1;
    let mark = half(t, 2 * MARKS + place);
    Entry {
        mark: mark as u32,
        length: Bytes(length),
    }
}

// Stores a record at place `i` of lane `k`'s ring.
pub fn set_record(t: &mut [u8], k: usize, i: u64, e: Entry)
    requires { Room t.old × (k < 64) × (0 < e.length.0) × (e.length.0 ≤ 2 ^ 16) }
    ensures { Now t.old t.new (put_entry (cells t.old) (place_in_lane k i) e) }
{
    let place = PLACES * k + (i % DEPTH) as usize;
    set_quarter(t, 4 * LENGTHS + place, e.length.0 - 1);
    set_half(t, 2 * MARKS + place, e.mark as u64);
}

// Makes the length of each place of lane `k`'s ring 1: what stood there may have been anything.
pub fn clear_lengths(t: &mut [u8], k: usize)
    requires { Room t.old × (k < 64) }
    ensures { Now t.old t.new (clear_cells (cells t.old) (lengths_cell + length_words * k) length_words) }
{
    let from = LENGTHS + LENGTH_WORDS * k;
    for i in 0..LENGTH_WORDS {
        set_cell(t, from + i, 0);
    }
}

// The round's number of lane `k`, a shared one.
pub fn round(t: &[u8], k: usize) -> u64
    requires { Front t.now × (k < 64) }
    ensures { result ≡ round_at (cells t.now) k }
{
    cell(t, ROWS + ROW_WORDS * k + 3)
}

// Stores the round's number of lane `k`.
pub fn set_round(t: &mut [u8], k: usize, v: u64)
    requires { Room t.old × (k < 64) }
    ensures { Now t.old t.new (set (cells t.old) (round_word k) v) }
{
    set_cell(t, ROWS + ROW_WORDS * k + 3, v);
}

// The number of train `j` of lane `k`.
pub fn train(t: &[u8], k: usize, j: usize) -> u64
    requires { Room t.now × (k < 64) × (j < 8) }
    ensures { (result ≡ train_number (cells t.now) k j) × (result < 2 ^ 32) }
{
    half(t, 2 * TRAIN_NUMBERS + (TRAINS * k + j))
}

// Stores the number of train `j` of lane `k`.
pub fn set_train(t: &mut [u8], k: usize, j: usize, v: u64)
    requires { Room t.old × (k < 64) × (j < 8) × (v < 2 ^ 32) }
    ensures { Now t.old t.new (put_train (cells t.old) k j v) }
{
    set_half(t, 2 * TRAIN_NUMBERS + (TRAINS * k + j), v);
}

// Makes the number of each of lane `k`'s trains 0: no record, and no deficit.
pub fn clear_trains(t: &mut [u8], k: usize)
    requires { Room t.old × (k < 64) }
    ensures { Now t.old t.new (clear_cells (cells t.old) (trains_cell + 4 * k) 4) }
{
    let from = TRAIN_NUMBERS + TRAIN_WORDS * k;
    for i in 0..TRAIN_WORDS {
        set_word(t, from + i, 0);
    }
}

// Whether lane `k` is in the setup.
pub fn present(t: &[u8], k: usize) -> bool
    requires { Front t.now × (k < 64) }
    ensures { result ≡ present_at (cells t.now) k }
{
    let lanes = cell(t, PRESENT);
    (lanes >> (k as u32)) % 2 == 1
}

// The clock V.
pub fn clock(t: &[u8]) -> Clock
    requires { Front t.now }
    ensures { result.0 ≡ (meant t.now).clock }
{
    Clock(cell(t, CLOCK))
}

// Moves the clock.
pub fn set_clock(t: &mut [u8], v: Clock)
    requires { Sound t.old }
    ensures { Leaves t.old t.new (with_clock (meant t.old) v.0) }
{
    set_cell(t, CLOCK, v.0);
}

// What a record of this length is charged for in this lane: its own length and the line's framing bytes.
pub fn charged(l: LaneRow, length: Bytes) -> Bytes
    requires { (l.framing.0 ≤ 64) × (length.0 < 2 ^ 32) }
    ensures { (result.0 ≡ charge (given_of l) length.0) × (result.0 ≤ length.0 + 64) }
{
    length + l.framing
}

// c and the group of a lane, worked out from its setting. The one division is made here.
pub fn pace_of(l: LaneRow) -> Pace
    requires { RowAgrees l }
    ensures { Paces (given_of l) result × (result.rate.0 ≤ 2 ^ 20) × (16 ≤ result.group) × (result.group ≤ 31) }
{
    let rate = lane_rate(l.weight);
    let group = group_index(lane_charge(charged(l, l.longest), rate));
    Pace { rate, group }
}
