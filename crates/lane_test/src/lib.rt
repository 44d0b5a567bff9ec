// The good-table test of one lane (R6.4, R6.6, R6.7, R6.10).
//
// Each function answers true exactly if the statement in its contract holds (`Says`). c is tested by the two bounds that only it meets, the group by equality
// with the least power, and R is found by shifting. An idle lane has no record to look at, and its c and group mean nothing: only where its F is further from V
// than two slots of the lowest group, its own group is worked out, which divides.
#![tactic(auto)]

ghost use Rattle.std.specs.Prelude.{◌≡◌, ◌+◌, ◌*◌, ◌^◌, ◌<◌, ◌≤◌, true, length};
ghost use Rattle.units.specs.Numbers.{per_byte};
ghost use Rattle.rules.specs.State.{group, lane_depth};
ghost use Rattle.table.specs.Layout.{Room, length_words, cells, row_at};
ghost use Rattle.digits.specs.Under.{Clear, Gathered};
ghost use Rattle.table.specs.Means.{RowAgrees, RowPaced, PlacesFit, given_of, present_at};
ghost use Rattle.lane_test.specs.Says.{Says, TimeGood, TrainsGood, LaneGood};

use round_test::shared_good;
use std::num::wrapping_add_u64;
use table::{
    DEPTH, LENGTH_WORDS, LENGTHS, LaneRow, TRAIN_NUMBERS, TRAIN_WORDS, charged, pace_of, round,
};
use units::{
    Bytes, Clock, RATE_OF_WEIGHT_ONE, lane_charge, line_charge, rounded_start, slot, two_slots,
};
use words::word;

// The numbers of a setting.
const LEAST_WEIGHT: u64 = 1;

const MOST_WEIGHT: u64 = 1024;

const LEAST_LONGEST: u64 = 64;

const MOST_LONGEST: u64 = 1500;

// The greatest group index.
const MOST_GROUP: u32 = 31;

// Whether c is 1,048,576 / weight, rounded up: the only number with 2^20 <= c w < 2^20 + w.
fn rate_good(l: LaneRow) -> bool
    requires { (1 ≤ l.weight) × (l.weight ≤ 1024) × (l.rate.0 < 2 ^ 24) }
    ensures { Says result (l.rate.0 ≡ per_byte l.weight) }
{
    let product = l.rate.0 * l.weight;
    if product < RATE_OF_WEIGHT_ONE {
        return false;
    }
    if product >= RATE_OF_WEIGHT_ONE + l.weight {
        return false;
    }
    true
}

// Whether the group is that of R1.10.
fn group_good(l: LaneRow) -> bool
    requires { (64 ≤ l.longest.0) × (l.longest.0 ≤ 1500) × (l.rate.0 ≡ per_byte l.weight) × (1 ≤ l.weight) × (l.weight ≤ 1024) × (l.framing.0 ≤ 64) }
    ensures { Says result (l.group ≡ group (given_of l)) }
{
    let index = l.group;
    if index > MOST_GROUP {
        return false;
    }
    let span = lane_charge(charged(l, l.longest), l.rate);
    let slot = slot(index);
    if slot < span {
        return false;
    }
    if span + span <= slot {
        return false;
    }
    true
}

// Whether a lane's setting is within the numbers.
pub fn numbers_good(l: LaneRow) -> bool
    requires { l.framing.0 ≤ 64 }
    ensures { Says result (RowAgrees l) }
{
    if l.weight < LEAST_WEIGHT {
        return false;
    }
    if l.weight > MOST_WEIGHT {
        return false;
    }
    if l.longest.0 < LEAST_LONGEST {
        return false;
    }
    if l.longest.0 > MOST_LONGEST {
        return false;
    }
    true
}

// Whether a lane's c and group are those of its setting.
pub fn pace_good(l: LaneRow) -> bool
    requires { RowAgrees l × (l.rate.0 < 2 ^ 24) }
    ensures { Says result (RowPaced l) }
{
    let rated = rate_good(l);
    if !rated {
        return false;
    }
    let grouped = group_good(l);
    if !grouped {
        return false;
    }
    true
}

// Whether a lane's clock word is near enough to V.
pub fn time_good(l: LaneRow, v: Clock) -> bool
    requires { (l.group ≤ 31) × (v.0 < 2 ^ 63) × (l.framing.0 ≤ 64) }
    ensures { Says result (TimeGood v.0 l l.group) }
{
    let window = two_slots(l.group);
    if v + window <= l.time {
        return false;
    }
    if l.count == 0 {
        return true;
    }
    let rounded = rounded_start(l.time, l.group);
    // How far the clock may run ahead in one take: what the longest record of any lane costs the line.
    let reach = line_charge(charged(l, Bytes(MOST_LONGEST)));
    if rounded + window + reach <= v {
        return false;
    }
    true
}

// Two slots of group 16, the lowest.
const NEAR: u64 = 131072;

// Whether the clock word of an idle lane is near enough to V. No lane's group is below 16, so most need no group for it.
fn rest_good(l: LaneRow, v: Clock) -> bool
    requires { RowAgrees l × (l.count ≡ 0) × (v.0 < 2 ^ 63) }
    ensures { Says result (TimeGood v.0 l (group (given_of l))) }
{
    if l.time < v + Clock(NEAR) {
        return true;
    }
    let p = pace_of(l);
    if l.time < v + two_slots(p.group) {
        return true;
    }
    false
}

// The top bit of each quarter of a word.
const TOPS: u64 = 9223512776490647552;

// Whether no quarter of a word has its top bit.
fn no_top(x: u64) -> bool
    ensures { Says result (Clear 4 x) }
{
    x & TOPS == 0
}

// 1 in each quarter.
const ONES: u64 = 281479271743489;

// A number whose quarters' top bits are all 0 exactly if each quarter of as many words from `from` on as a lane has for its lengths is below `bound`. There
// is no branch in it, so the words are worked several at a time.
fn gather(t: &[u8], from: usize, bound: u64) -> u64
    requires { (from * 8 + 8 * length_words ≤ length t.now) × (0 < bound) × (bound ≤ 2 ^ 15) }
    ensures { Gathered t.now from length_words bound result }
{
    let more = (32768 - bound) * ONES;
    let mut tops: u64 = 0;
    for i in 0..LENGTH_WORDS {
        let x = word(t, from + i);
        tops = tops | x | wrapping_add_u64(x, more);
    }
    tops
}

// Whether each place of a lane's ring holds a length of 1 to the lane's longest, a record there or not.
fn places_good(t: &[u8], k: usize, l: LaneRow) -> bool
    requires { Room t.now × (k < 64) × (0 < l.longest.0) × (l.longest.0 ≤ 2 ^ 15) }
    ensures { Says result (PlacesFit (cells t.now) k l) }
{
    no_top(gather(t, LENGTHS + LENGTH_WORDS * k, l.longest.0))
}

// Whether the trains and the round of lane `k`, a shared one that holds records, are good, and its row counts their records.
fn trains_good(t: &[u8], k: usize, l: LaneRow) -> bool
    requires { Room t.now × (k < 64) × (0 < l.longest.0) × (l.longest.0 ≤ 2 ^ 15) × PlacesFit (cells t.now) k l }
    ensures { Says result (TrainsGood (cells t.now) k l) }
{
    let round = round(t, k);
    shared_good(
        t,
        2 * (TRAIN_NUMBERS + TRAIN_WORDS * k),
        4 * (LENGTHS + LENGTH_WORDS * k),
        round,
        l.longest.0,
        l.count,
    )
}

// Whether lane `k`, which is in the setup and has the row `l`, is good. The line's framing bytes are the whole table's, tested before its lanes.
pub fn lane_good(t: &[u8], k: usize, l: LaneRow, v: Clock) -> bool
    requires { Room t.now × (k < 64) × (present_at (cells t.now) k ≡ true) × (l ≡ row_at (cells t.now) k) × (l.head < lane_depth) × (l.rate.0 < 2 ^ 24) × (v.0 < 2 ^ 63) × (l.framing.0 ≤ 64) }
    ensures { Says result (LaneGood v.0 (cells t.now) k) }
{
    let agrees = numbers_good(l);
    if !agrees {
        return false;
    }
    if l.count == 0 {
        return rest_good(l, v);
    }
    if l.count > DEPTH {
        return false;
    }
    let paced = pace_good(l);
    if !paced {
        return false;
    }
    let timed = time_good(l, v);
    if !timed {
        return false;
    }
    let places = places_good(t, k, l);
    if !places {
        return false;
    }
    if !l.shared {
        return true;
    }
    trains_good(t, k, l)
}
