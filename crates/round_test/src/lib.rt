// The good-table test of one shared lane, by the numbers that the lane is kept in (crate `turns`).
//
// The round is held to the trains by one number, a tally of three parts: a bit for each of 8 trains, how many trains these are, and again a bit for each train.
// From the round it has the trains named, the number of names, and the train in turn; from the trains' numbers the trains that hold records, how many these
// are, and the trains whose deficit covers their first record. In a good lane both tallies are the same; and where they are, with as many names as trains that
// hold and each of these named, none is named twice and nothing else is named. Every place of the lane holds a length within the numbers: that is tested
// before, for all 64 at once.
//
// The lengths are lent as a part of the bytes, from the lane's own on: the compiler then keeps their address, and a train takes two instructions less. The
// counts are added up first, two at a time: each word is then loaded once for them and for the trains.
#![tactic(auto)]

ghost use Rattle.std.specs.Prelude.{◌≡◌, ◌+◌, ◌*◌, ◌/◌, ◌^◌, ◌<◌, ◌≤◌, length};
ghost use Rattle.turns.specs.Turns.{head_of, count_of, deficit_of, place_in_train};
ghost use Rattle.round_test.specs.Shared.{Says, numbers_at, lengths_at, LengthsFit, held_below, HoldsSome, Seen, Wanted, Tallied, SharedGood};

use digits::{half, quarter};
use turns::{COUNT_UNIT, DEFICIT_UNIT, NAMED_UNIT, ORDER_UNIT, TRAIN_DEPTH};

// A lane has up to 8 trains.
const TRAINS: usize = 8;

// The parts of a tally behind the first: how many trains, and the trains in turn or covered.
const NUMBER_UNIT: u64 = 256;

const COVERED_UNIT: u64 = 4096;

// Where the second number begins in a word of two.
const HALF_UNIT: u64 = 4294967296;

// 15 in each half of a word.
const FIFTEENS: u64 = 64424509455;

// The trains that eight numbers of four bits name, as a word. Of 16 bits for 16 numbers, the lowest 8 are trains.
fn seen(order: u64) -> u64
    ensures { Seen order result }
{
    let mut rest = order;
    let mut seen: u64 = 0;
    for _ in 0..TRAINS {
        seen = seen | (1u64 << ((rest % ORDER_UNIT) as u32));
        rest = rest / ORDER_UNIT;
    }
    seen % NUMBER_UNIT
}

// The tally of a round of `named` trains; `order` has 15, which is no train, behind them.
fn wanted(order: u64, named: u64) -> u64
    requires { named ≤ 8 }
    ensures { Wanted order named result }
{
    let turn = (1u64 << ((order % ORDER_UNIT) as u32)) % NUMBER_UNIT;
    seen(order) + NUMBER_UNIT * named + COVERED_UNIT * turn
}

// The numbers of trains `k` and `k + 1`, in one word. A function of its own, it makes one load.
fn both(t: &[u8], trains: usize, k: usize) -> u64
    requires { ((trains + 7) / 2 * 8 + 8 ≤ length t.now) × (k ≤ 6) }
    ensures { (result ≡ numbers_at t.now trains k + 2 ^ 32 * numbers_at t.now trains (k + 1)) × (numbers_at t.now trains k < 2 ^ 32) }
{
    half(t, trains + k) + half(t, trains + k + 1) * HALF_UNIT
}

// The counts of trains `k` and `k + 1`, one in each half of a word.
fn two_counts(t: &[u8], trains: usize, k: usize) -> u64
    requires { ((trains + 7) / 2 * 8 + 8 ≤ length t.now) × (k ≤ 6) }
    ensures { result ≡ count_of (numbers_at t.now trains k) + 2 ^ 32 * count_of (numbers_at t.now trains (k + 1)) }
{
    (both(t, trains, k) / COUNT_UNIT) & FIFTEENS
}

// How many records the trains hold.
fn held(t: &[u8], trains: usize) -> u64
    requires { (trains + 7) / 2 * 8 + 8 ≤ length t.now }
    ensures { result ≡ held_below (numbers_at t.now trains) 8 }
{
    let mut held: u64 = 0;
    for i in 0..TRAINS / 2 {
        held += two_counts(t, trains, 2 * i);
    }
    held % HALF_UNIT + held / HALF_UNIT
}

// Whether a train's number has 1 to 8 records: with 15 added, a count has bit 3 exactly if it is none of these.
fn holds(train: u64) -> bool
    requires { train < 2 ^ 32 }
    ensures { Says result (HoldsSome train) }
{
    (train + 15 * COUNT_UNIT) / (8 * COUNT_UNIT) % 2 == 0
}

// Whether the deficit of train `k`, whose number this is, covers its first record.
fn covered(lens: &[u8], lengths: usize, k: usize, train: u64) -> bool
    requires { ((lengths + 63) / 4 * 8 + 8 ≤ length lens.now) × (k < 8) }
    ensures { Says result (lengths_at lens.now lengths (place_in_train k (head_of train)) ≤ deficit_of train) }
{
    let length = quarter(lens, lengths + 8 * k + (train % TRAIN_DEPTH) as usize) + 1;
    length <= train / DEFICIT_UNIT
}

// Whether the trains' numbers are those of a round of `named` trains; `order` is as in `wanted`.
fn trains_good(
    t: &[u8],
    trains: usize,
    lens: &[u8],
    lengths: usize,
    order: u64,
    named: u64,
    longest: u64,
) -> bool
    requires { ((trains + 7) / 2 * 8 + 8 ≤ length t.now) × ((lengths + 63) / 4 * 8 + 8 ≤ length lens.now) × (named ≤ 8) × (longest ≤ 2 ^ 15) }
    ensures { Says result (Tallied longest (numbers_at t.now trains) (lengths_at lens.now lengths) order named) }
{
    let mut tally: u64 = 0;
    for k in 0..TRAINS {
        let train = half(t, trains + k);
        let one = 1u64 << (k as u32);
        if holds(train) {
            tally += one + NUMBER_UNIT;
            if covered(lens, lengths, k, train) {
                if train / DEFICIT_UNIT >= 2 * longest {
                    return false;
                }
                tally += COVERED_UNIT * one;
            }
        } else {
            if train >= COUNT_UNIT {
                return false;
            }
        }
    }
    tally == wanted(order, named)
}

// Whether a shared lane is good and holds `count` records: its trains' numbers are in the halves of the bytes from `trains` on, the lengths of its places
// in the quarters from `lengths` on.
pub fn shared_good(
    t: &[u8],
    trains: usize,
    lengths: usize,
    round: u64,
    longest: u64,
    count: u64,
) -> bool
    requires { ((trains + 7) / 2 * 8 + 8 ≤ length t.now) × ((lengths + 63) / 4 * 8 + 8 ≤ length t.now) × (0 < longest) × (longest ≤ 2 ^ 15) × LengthsFit longest (lengths_at t.now lengths) }
    ensures { Says result (SharedGood longest (numbers_at t.now trains) (lengths_at t.now lengths) round count) }
{
    let named = round / NAMED_UNIT;
    if named > 8 {
        return false;
    }
    let order = round % NAMED_UNIT;
    let end = 1u64 << ((4 * named) as u32);
    if order >= end {
        return false;
    }
    if held(t, trains) != count {
        return false;
    }
    let from = lengths / 4 * 8;
    trains_good(
        t,
        trains,
        &t[from..],
        lengths % 4,
        order + (NAMED_UNIT - end),
        named,
        longest,
    )
}
