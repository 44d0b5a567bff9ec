// Slot lists that do not agree with the lanes, and lists that do not agree with themselves.
use base_table as base;
use std::io::Stdout;

pub fn twice(out: Stdout) {
    base::spot(
        out,
        b"a lane twice in a list",
        poked::COUNTS + poked::ring(22, 0),
        2,
    );
    base::filed(out, b"a lane in two lists", poked::MAPS + 23, 3, 23, 1, 1);
    let mut t = [0u8; base::SIZE];
    base::base(&mut t);
    poked::put(&mut t, poked::GROUPS, 29360128);
    poked::group(&mut t, 24, 0, 1);
    poked::alone(&mut t, 24, 0, 1);
    base::say(out, b"a lane in two groups", &t);
}

// Lane 1 in list 1 of its group, where its S of 0 does not lie.
pub fn elsewhere(out: Stdout) {
    base::filed(
        out,
        b"a lane in the next list",
        poked::MAPS + 23,
        2,
        23,
        1,
        1,
    );
    let mut t = [0u8; base::SIZE];
    base::base(&mut t);
    poked::group(&mut t, 23, 8388608, 2);
    poked::alone(&mut t, 23, 1, 1);
    base::say(out, b"and the start with it", &t);
    base::later(&mut t, 8388608, 8388608, 1, 2);
    base::say(out, b"and its S with them", &t);
    base::spot(out, b"a lane of another group", poked::place(23, 0, 0), 0);
}

pub fn no_lane(out: Stdout) {
    base::spot(out, b"a list names lane 64", poked::place(23, 0, 0), 64);
    base::spot(out, b"a list names lane 255", poked::place(23, 0, 0), 255);
    base::spot(
        out,
        b"a list names an absent lane",
        poked::place(23, 0, 0),
        5,
    );
    base::one(
        out,
        b"a list names an idle lane",
        poked::LANE_0 + poked::RING,
        0,
    );
}

pub fn left_out(out: Stdout) {
    base::one(
        out,
        b"a lane left out with its group",
        poked::GROUPS,
        4194304,
    );
    base::one(out, b"all lanes left out", poked::GROUPS, 0);
    base::one(out, b"a lane left out with its list", poked::MAPS + 23, 0);
    base::spot(
        out,
        b"a list of no lane",
        poked::COUNTS + poked::ring(23, 0),
        0,
    );
}

pub fn starts(out: Stdout) {
    base::one(out, b"a start one slot on", poked::STARTS + 23, 8388608);
    base::one(out, b"a start 32 slots on", poked::STARTS + 23, 268435456);
    base::one(out, b"a start within its slot", poked::STARTS + 23, 1);
    let mut t = [0u8; base::SIZE];
    base::base(&mut t);
    base::later(&mut t, 8388608, 0, 1, 2);
    base::say(out, b"a start before its lanes", &t);
}

pub fn marks(out: Stdout) {
    base::one(out, b"a mark without a list", poked::MAPS + 23, 3);
    base::one(out, b"a mark above the lists", poked::MAPS + 23, 4294967297);
    base::one(
        out,
        b"the highest mark",
        poked::MAPS + 23,
        9223372036854775809,
    );
}

pub fn groups(out: Stdout) {
    base::one(out, b"a group without lists", poked::GROUPS, 29360128);
    base::one(out, b"a group below 16", poked::GROUPS, 12615680);
    base::one(out, b"a group above 31", poked::GROUPS, 4307550208);
}

pub fn numbers(out: Stdout) {
    base::spot(out, b"a list of 64", poked::COUNTS + poked::ring(22, 0), 64);
    base::spot(out, b"a list of 65", poked::COUNTS + poked::ring(22, 0), 65);
    base::spot(
        out,
        b"a list of 255",
        poked::COUNTS + poked::ring(22, 0),
        255,
    );
}
