// What waits in a table's lanes: a record is put to a lane (R3.6, R3.7), and the first one leaves it (R3.11, R3.13), each with what it does to S and F.
//
// The records of a lane are a ring of 64 places. A shared lane's are eight rings of 8, one for each train, and whose turn it is follows from its trains'
// numbers and its round's (crate `turns`). Each public function leaves one lane changed as `rules` says (`appended`, `woken`, `served`) and all else as it was.
// These are inner functions: a `requires` says what a good state gives.
#![tactic(auto)]

ghost use Rattle.std.specs.Prelude.{◌≡◌, true, false, ◌+◌, ◌^◌, ◌<◌, ◌≤◌, max};
ghost use Rattle.rounds.specs.Good.{GoodShared};
ghost use Rattle.turns.specs.Turns.{named_of, Ordered};
ghost use Rattle.waiting.specs.Waiting.{GoodWaiting};
ghost use Rattle.waiting.proofs.Laws.{Enters};
ghost use Rattle.rules.specs.State.{lane_at, holds, group, lane_depth};
ghost use Rattle.rules.specs.Calls.{appended, woken};
ghost use Rattle.table.specs.Layout.{Room, cells, row_at, round_at};
ghost use Rattle.table.specs.Means.{meant, shared_at, RowPaced, Sound, Leaves, with_lane};
ghost use Rattle.queue.specs.Queue.{waiting, First, Takes, Ready, Joins, Entered, Cleared, Fronts, Chosen, Turned};

use table::{
    DEPTH, Entry, LaneRow, charged, clear_lengths, clear_trains, pace_of, record_at, round, row,
    set_pace, set_record, set_ring, set_round, set_row, set_train, train,
};
use turns::{COUNT_UNIT, DEFICIT_UNIT, NAMED_UNIT, ORDER_UNIT, TRAIN_DEPTH};
use units::{Bytes, Clock, lane_charge};

// A record that waits: its train (0 in a lane that is not shared), the host's mark, and its length.
#[derive(Clone, Copy)]
pub struct Item {
    pub train: u8,
    pub mark: u32,
    pub length: Bytes,
}

// Where a lane's first record stands, and its train.
#[derive(Clone, Copy)]
pub struct FirstPlace {
    pub train: u8,
    pub place: u64,
}

// ---- a record more

// A record more for train `j` of lane `k`, a shared one: its place, once the numbers of the train and of the round tell of it.
fn join(t: &mut [u8], k: usize, j: u8, longest: u64) -> u64
    requires { Room t.old × (k < 64) × Ready (cells t.old) k j × (longest ≤ 1500) }
    ensures { Joins t.old t.new k j longest result × (result < 64) }
{
    let i = j as usize;
    let number = train(t, k, i);
    let c = turns::put(number, round(t, k), j as u64, longest);
    set_train(t, k, i, c.train);
    set_round(t, k, c.round);
    TRAIN_DEPTH * (j as u64) + (number % TRAIN_DEPTH + number / COUNT_UNIT % 16) % TRAIN_DEPTH
}

// Stores a record behind those of its train in lane `k`, which has the row `l`. The row stays.
fn enter(t: &mut [u8], k: usize, l: LaneRow, e: Item)
    requires { Room t.old × (k < 64) × (l.head < lane_depth) × (l.count < lane_depth) × (l.longest.0 ≤ 1500) × (0 < e.length.0) × (e.length.0 ≤ l.longest.0) × (l.shared ≡ true → Ready (cells t.old) k e.train) }
    ensures { Entered t.old t.new k l e }
{
    let length = e.length;
    let entry = Entry {
        mark: e.mark,
        length,
    };
    if l.shared {
        let place = join(t, k, e.train, l.longest.0);
        set_record(t, k, place, entry);
    } else {
        set_record(t, k, l.head + l.count, entry);
    }
}

// Appends a record to lane `k`, which holds records and has room for it.
pub fn append(t: &mut [u8], k: usize, e: Item)
    requires { Sound t.old × (k < 64) × GoodWaiting (lane_at (meant t.old) k).given.longest (lane_at (meant t.old) k).waiting × Enters (lane_at (meant t.old) k).given.longest (lane_at (meant t.old) k).waiting (waiting e) × (holds (lane_at (meant t.old) k) ≡ true) }
    ensures { Leaves t.old t.new (with_lane (meant t.old) k (appended (lane_at (meant t.old) k) (waiting e))) }
{
    let l = row(t, k);
    enter(t, k, l, e);
    set_ring(t, k, l.head, l.count + 1);
}

// While a lane holds records all its places are within its numbers, and a shared one's trains and round are those of its records; in an idle lane these words
// may hold anything.
fn clear(t: &mut [u8], k: usize, l: LaneRow)
    requires { Room t.old × (k < 64) × (0 < l.longest.0) }
    ensures { Cleared t.old t.new k l }
{
    clear_lengths(t, k);
    if l.shared {
        clear_trains(t, k);
        set_round(t, k, 0);
    }
}

// Puts the first record into lane `k`, which is in the setup and idle, and has its c and group. `start` is its S.
fn begin(t: &mut [u8], k: usize, start: Clock, e: Item)
    requires { Sound t.old × (k < 64) × GoodWaiting (lane_at (meant t.old) k).given.longest (lane_at (meant t.old) k).waiting × Enters (lane_at (meant t.old) k).given.longest (lane_at (meant t.old) k).waiting (waiting e) × (0 < (lane_at (meant t.old) k).given.weight) × (holds (lane_at (meant t.old) k) ≡ false) × (start.0 ≡ max (lane_at (meant t.old) k).finish (meant t.old).clock) × RowPaced (row_at (cells t.old) k) }
    ensures { Leaves t.old t.new (with_lane (meant t.old) k (woken (meant t.old).clock (lane_at (meant t.old) k) (waiting e))) }
{
    let l = row(t, k);
    clear(t, k, l);
    enter(t, k, l, e);
    let mut next = l;
    next.time = start;
    next.count = 1;
    set_row(t, k, next);
}

// Puts the first record into lane `k`, which is in the setup and idle. `start` is its S (R3.7). While a lane is idle, c and group mean nothing in its words: they
// are worked out and stored here. The answer is the group.
pub fn wake(t: &mut [u8], k: usize, start: Clock, e: Item) -> u32
    requires { Sound t.old × (k < 64) × GoodWaiting (lane_at (meant t.old) k).given.longest (lane_at (meant t.old) k).waiting × Enters (lane_at (meant t.old) k).given.longest (lane_at (meant t.old) k).waiting (waiting e) × (0 < (lane_at (meant t.old) k).given.weight) × (holds (lane_at (meant t.old) k) ≡ false) × (start.0 ≡ max (lane_at (meant t.old) k).finish (meant t.old).clock) }
    ensures { Leaves t.old t.new (with_lane (meant t.old) k (woken (meant t.old).clock (lane_at (meant t.old) k) (waiting e))) × (result ≡ group (lane_at (meant t.old) k).given) × (16 ≤ result) × (result ≤ 31) }
{
    let p = pace_of(row(t, k));
    set_pace(t, k, p);
    begin(t, k, start, e);
    p.group
}

// ---- the first record

// Where the first record of lane `k` stands, which holds records and has the row `l`.
fn front(t: &[u8], k: usize, l: LaneRow) -> FirstPlace
    requires { Room t.now × (k < 64) × (0 < l.count) × (l.shared ≡ true → GoodShared l.longest.0 (shared_at (cells t.now) k) × Ordered (round_at (cells t.now) k) × (0 < named_of (round_at (cells t.now) k))) }
    ensures { Fronts (cells t.now) k l result }
{
    if l.shared {
        let j = round(t, k) % NAMED_UNIT % ORDER_UNIT;
        let number = train(t, k, j as usize);
        return FirstPlace {
            train: j as u8,
            place: TRAIN_DEPTH * j + number % TRAIN_DEPTH,
        };
    }
    FirstPlace {
        train: 0,
        place: l.head,
    }
}

// The first record of lane `k`, which holds records.
pub fn first(t: &[u8], k: usize) -> Item
    requires { Sound t.now × (k < 64) × GoodWaiting (lane_at (meant t.now) k).given.longest (lane_at (meant t.now) k).waiting × (holds (lane_at (meant t.now) k) ≡ true) }
    ensures { First (lane_at (meant t.now) k) result × (result.length.0 ≤ 2 ^ 16) }
{
    let l = row(t, k);
    let f = front(t, k, l);
    let e = record_at(t, k, f.place);
    let length = e.length;
    Item {
        train: f.train,
        mark: e.mark,
        length,
    }
}

// The chosen record of lane `k`, a shared one, of this length, is handed out: what the trains' numbers and the round's become.
fn turn(t: &mut [u8], k: usize, longest: u64, length: u64)
    requires { Room t.old × (k < 64) × (longest ≤ 1500) × Chosen (cells t.old) k longest length }
    ensures { Turned t.old t.new k longest }
{
    let r = round(t, k);
    let j = r % NAMED_UNIT % ORDER_UNIT;
    let number = train(t, k, j as usize);
    let next = record_at(t, k, TRAIN_DEPTH * j + (number + 1) % TRAIN_DEPTH);
    let c = turns::hand_out(number, r, length, next.length.0);
    set_train(t, k, j as usize, c.train);
    set_round(t, k, c.round);
    if c.begins {
        let i = (c.round % NAMED_UNIT % ORDER_UNIT) as usize;
        let begun = train(t, k, i) + DEFICIT_UNIT * longest;
        set_train(t, k, i, begun);
    }
}

// Takes the first record of lane `k`, which holds records. Its new clock word is F: the next S, or the F that an idle lane keeps.
pub fn take_first(t: &mut [u8], k: usize) -> Item
    requires { Sound t.old × (k < 64) × GoodWaiting (lane_at (meant t.old) k).given.longest (lane_at (meant t.old) k).waiting × (holds (lane_at (meant t.old) k) ≡ true) × ((lane_at (meant t.old) k).finish < 2 ^ 64) }
    ensures { Takes t.old t.new k result }
{
    let l = row(t, k);
    let e = first(t, k);
    let finish = l.time + lane_charge(charged(l, e.length), l.rate);
    let mut next = l;
    next.time = finish;
    next.count = l.count - 1;
    if l.shared {
        turn(t, k, l.longest.0, e.length.0);
        set_row(t, k, next);
        return e;
    }
    next.head = (l.head + 1) % DEPTH;
    set_row(t, k, next);
    e
}
