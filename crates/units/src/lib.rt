// Bytes and clock units, counted apart (R1.13), and the numbers of a lane (R1.8 to R1.10).
//
// Units:
//   Bytes   bytes of records
//   Clock   clock units (virtual time): the clock V, starts, finishes and slots
//   Rate    clock units for each byte: c of a lane, 1,024 of the line
//
// Each is ordered by its number, and bytes are added to bytes, times to times: an operator takes two values of one type. So bytes and clock units are never
// added to each other, nor compared. Only `lane_charge` and `line_charge` turn the first into the second.
//
// These are inner functions: a `requires` says what the crates above keep. Ranges (R1.2, R1.11, R6.5): weight 1 to 1,024, so c is 1,024 to 1,048,576;
// group index 16 to 31; the clock below 2^62 + 2^44.
#![tactic(auto)]

ghost use Rattle.std.specs.Prelude.{◌≡◌, ◌+◌, ◌-◌, ◌*◌, ◌^◌, ◌<◌, ◌≤◌};
ghost use Rattle.units.specs.Numbers.{per_byte, line_rate, Least, round_down};

use std::ops::{Add, Sub};

#[derive(Clone, Copy, PartialEq, Eq, PartialOrd, Ord)]
pub struct Bytes(pub u64);

#[derive(Clone, Copy, PartialEq, Eq, PartialOrd, Ord)]
pub struct Clock(pub u64);

#[derive(Clone, Copy, PartialEq, Eq, PartialOrd, Ord)]
pub struct Rate(pub u64);

// Two lengths together.
impl Add for Bytes {
    type Output = Bytes;

    ghost can_add = { λ a b. a.0 + b.0 < 2 ^ 64 };

    ghost add_gives = { λ a b r. r.0 ≡ a.0 + b.0 };

    fn add(self, other: Bytes) -> Bytes {
        Bytes(self.0 + other.0)
    }
}

// A time, some clock units later.
impl Add for Clock {
    type Output = Clock;

    ghost can_add = { λ time units. time.0 + units.0 < 2 ^ 64 };

    ghost add_gives = { λ time units r. r.0 ≡ time.0 + units.0 };

    fn add(self, units: Clock) -> Clock {
        Clock(self.0 + units.0)
    }
}

// A time, some clock units earlier.
impl Sub for Clock {
    type Output = Clock;

    ghost can_sub = { λ time units. units.0 ≤ time.0 };

    ghost sub_gives = { λ time units r. r.0 ≡ time.0 - units.0 };

    fn sub(self, units: Clock) -> Clock {
        Clock(self.0 - units.0)
    }
}

// R1.9: the clock units that a byte costs the line, whatever its lane.
pub const LINE_RATE: u64 = 1024;

// The clock units that the whole line's weight, 1,024, gives to one byte of a lane of weight 1: 2^20.
pub const RATE_OF_WEIGHT_ONE: u64 = 1048576;

// c of a lane: 1,048,576 / weight, rounded up.
pub fn lane_rate(weight: u64) -> Rate
    requires { (1 ≤ weight) × (weight ≤ 1024) }
    ensures { (result.0 ≡ per_byte weight) × (1024 ≤ result.0) × (result.0 ≤ 2 ^ 20) }
{
    Rate((RATE_OF_WEIGHT_ONE + (weight - 1)) / weight)
}

// What a record of this length costs its lane.
pub fn lane_charge(length: Bytes, c: Rate) -> Clock
    requires { (length.0 ≤ 2 ^ 33) × (c.0 ≤ 2 ^ 20) }
    ensures { result.0 ≡ length.0 * c.0 }
{
    Clock(length.0 * c.0)
}

// What a record of this length costs the line.
pub fn line_charge(length: Bytes) -> Clock
    requires { length.0 ≤ 2 ^ 33 }
    ensures { result.0 ≡ line_rate * length.0 }
{
    Clock(LINE_RATE * length.0)
}

// R1.10: the group index of a lane whose longest record costs it `span`: as many bits as `span` less one has, so that a power of two is its own.
pub fn group_index(span: Clock) -> u32
    requires { span.0 ≤ 2 ^ 63 }
    ensures { Least span.0 result × (result ≤ 63) }
{
    let n = span.0;
    if n == 0 {
        return 0;
    }
    64 - u64::leading_zeros(n - 1)
}

// The slot of group `index`.
pub fn slot(index: u32) -> Clock
    requires { index ≤ 31 }
    ensures { (result.0 ≡ 2 ^ index) × (0 < result.0) × (result.0 ≤ 2 ^ 31) }
{
    Clock(1u64 << index)
}

// R: the start with its remainder by the slot of group `index` taken off. By two shifts, for a remainder by a slot would be a division.
pub fn rounded_start(start: Clock, index: u32) -> Clock
    requires { index ≤ 31 }
    ensures { (result.0 ≡ round_down (2 ^ index) start.0) × (result.0 ≤ start.0) }
{
    Clock(start.0 >> index << index)
}

// 2s: two slots of group `index`.
pub fn two_slots(index: u32) -> Clock
    requires { index ≤ 31 }
    ensures { (result.0 ≡ 2 * 2 ^ index) × (result.0 ≤ 2 ^ 32) }
{
    Clock(2 * slot(index).0)
}

// R + 2s, from R and the group index.
pub fn rounded_finish(rounded: Clock, index: u32) -> Clock
    requires { (rounded.0 ≤ 2 ^ 63) × (index ≤ 31) }
    ensures { result.0 ≡ rounded.0 + 2 * 2 ^ index }
{
    rounded + two_slots(index)
}
