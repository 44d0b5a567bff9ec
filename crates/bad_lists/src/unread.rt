// Words and bytes that mean nothing may hold anything.
use base_table as base;
use std::io::Stdout;

pub fn words(out: Stdout) {
    base::two(
        out,
        b"first and last free word below the rows",
        poked::FREE,
        77,
        poked::LAST_FREE,
        77,
    );
    base::one(
        out,
        b"the round of a lane that is not shared",
        poked::LANE_0 + poked::ROUND,
        77,
    );
    base::one(out, b"an absent lane's words", poked::LANE_2, 77);
}

// A mark is any number, a record there or not.
pub fn marks(out: Stdout) {
    let mut t = [0u8; base::SIZE];
    base::base(&mut t);
    poked::mark(&mut t, 1, 0, 255);
    base::say(out, b"another mark", &t);
    poked::mark(&mut t, 1, 1, 255);
    base::say(out, b"the mark of a place without a record", &t);
}

pub fn kept(out: Stdout) {
    base::spot(
        out,
        b"a train of a lane that is not shared",
        poked::TRAINS,
        255,
    );
    base::spot(out, b"first kept byte", poked::KEPT, 255);
    base::spot(out, b"last kept byte", base::SIZE - 1, 255);
}

pub fn lists(out: Stdout) {
    base::two(
        out,
        b"first and last free word of the lists",
        poked::FREE_OF_LISTS,
        77,
        poked::LAST_FREE_OF_LISTS,
        77,
    );
    base::two(
        out,
        b"words of a group without lanes",
        poked::STARTS + 24,
        77,
        poked::MAPS + 24,
        77,
    );
    base::spot(
        out,
        b"number of a list without a mark",
        poked::COUNTS + poked::ring(23, 1),
        77,
    );
    base::spot(
        out,
        b"place of a list without a lane",
        poked::place(23, 0, 1),
        77,
    );
    base::spot(
        out,
        b"first place of a list without a mark",
        poked::HEADS + poked::ring(23, 1),
        77,
    );
}
