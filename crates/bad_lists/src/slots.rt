// Lists of more than one lane, rings that go past their end, and a clock that was taken back.
use base_table as base;
use std::io::Stdout;

// Lane 1 beside lane 0 in list 0 of group 22: `first` and `second` in this order.
fn pair(out: Stdout, name: &[u8], first: u8, second: u8) {
    let mut t = [0u8; base::SIZE];
    base::base(&mut t);
    poked::put(&mut t, poked::LANE_1, poked::setting(512, 1500, 22, 2048));
    poked::put(&mut t, poked::GROUPS, 4194304);
    poked::byte(&mut t, poked::COUNTS + poked::ring(22, 0), 2);
    poked::byte(&mut t, poked::place(22, 0, 0), first);
    poked::byte(&mut t, poked::place(22, 0, 1), second);
    base::say(out, name, &t);
}

pub fn turns(out: Stdout) {
    pair(out, b"two lanes in a list", 0, 1);
    pair(out, b"two lanes in a list, turned", 1, 0);
    pair(out, b"two lanes in a list, one twice", 1, 1);
}

// The ring's first place is any byte, taken modulo 64.
pub fn places(out: Stdout) {
    let mut t = [0u8; base::SIZE];
    base::base(&mut t);
    poked::byte(&mut t, poked::HEADS + poked::ring(23, 0), 255);
    base::say(out, b"a list from another place on", &t);
    poked::byte(&mut t, poked::place(23, 0, 63), 1);
    base::say(out, b"with its lane there", &t);
    poked::byte(&mut t, poked::COUNTS + poked::ring(23, 0), 2);
    base::say(out, b"and once more at the first place", &t);
}

// Lane 2 alone is in the setup, and holds a record; lane 1's setting would do.
fn lane_2(t: &mut [u8]) {
    poked::put(t, poked::PRESENT, 4);
    poked::put(t, poked::DEPTH, poked::ROOM);
    poked::put(t, poked::LANE_1, poked::setting(512, 1500, 22, 2048));
    poked::put(t, poked::LANE_2, poked::setting(512, 1500, 22, 2048));
    poked::put(t, poked::LANE_2 + poked::RING, poked::ROOM);
    poked::record(t, 2, 0, 1, 1000);
}

// Lane 2 alone holds a record, and its list names lane 1 twice: two bits whose sum is lane 2's bit. Lane 1 is not in the setup, and its words would do.
pub fn carried(out: Stdout) {
    let mut t = [0u8; base::SIZE];
    lane_2(&mut t);
    poked::put(&mut t, poked::GROUPS, 4194304);
    poked::group(&mut t, 22, 0, 1);
    poked::byte(&mut t, poked::COUNTS + poked::ring(22, 0), 2);
    poked::byte(&mut t, poked::place(22, 0, 0), 1);
    poked::byte(&mut t, poked::place(22, 0, 1), 1);
    base::say(out, b"a list names another lane twice", &t);
    poked::alone(&mut t, 22, 0, 2);
    base::say(out, b"a list names the lane once", &t);
}

// What was taken off the clock: a multiple of 2^31, below 2^36. 2^31 is a multiple of 32 slots of the groups 22 and 23, so their lists stay.
pub fn taken_back(out: Stdout) {
    base::one(out, b"2^31 taken off the clock", poked::BACK, 2147483648);
    base::one(out, b"2^36 - 2^31 taken off", poked::BACK, 66571993088);
    base::one(out, b"2^36 taken off", poked::BACK, 68719476736);
    base::one(out, b"2^31 - 1 taken off", poked::BACK, 2147483647);
    base::one(out, b"2^30 taken off", poked::BACK, 1073741824);
}

// Lane 0 alone, of group 31, holds a record.
fn slow(t: &mut [u8]) {
    poked::put(t, poked::PRESENT, 1);
    poked::put(t, poked::DEPTH, poked::ROOM);
    poked::put(t, poked::LANE_0, poked::setting(1, 1500, 31, 1048576));
    poked::put(t, poked::LANE_0 + poked::RING, poked::ROOM);
    poked::record(t, 0, 0, 1, 1000);
}

// In group 31 it is one slot.
pub fn taken_back_far(out: Stdout) {
    let mut t = [0u8; base::SIZE];
    slow(&mut t);
    poked::put(&mut t, poked::GROUPS, 2147483648);
    poked::group(&mut t, 31, 0, 1);
    poked::alone(&mut t, 31, 0, 0);
    base::say(out, b"a lane of group 31", &t);
    poked::put(&mut t, poked::BACK, 2147483648);
    base::say(out, b"its clock taken back by a slot", &t);
    poked::group(&mut t, 31, 0, 2);
    poked::alone(&mut t, 31, 1, 0);
    base::say(out, b"and its list one on", &t);
}
