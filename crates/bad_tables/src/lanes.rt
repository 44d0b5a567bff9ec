// The settings of the lanes, and the records that they hold.
use base_table as base;
use std::io::Stdout;

// Lane 1 with this setting of group `g`, and its list there; `groups` is the word of the groups that have lanes.
fn moved(out: Stdout, name: &[u8], setting: u64, groups: u64, g: usize) {
    let mut t = [0u8; base::SIZE];
    base::base(&mut t);
    poked::put(&mut t, poked::LANE_1, setting);
    poked::put(&mut t, poked::GROUPS, groups);
    poked::group(&mut t, g, 0, 1);
    poked::alone(&mut t, g, 0, 1);
    base::say(out, name, &t);
}

pub fn settings(out: Stdout) {
    base::one(
        out,
        b"present lane of weight 0",
        poked::LANE_0,
        poked::setting(0, 1500, 22, 2048),
    );
    moved(
        out,
        b"weight 1",
        poked::setting(1, 1500, 31, 1048576),
        2151677952,
        31,
    );
    base::rest(
        out,
        b"longest 63",
        poked::LANE_1,
        poked::setting(256, 63, 18, 4096),
    );
    base::rest(
        out,
        b"longest 64",
        poked::LANE_1,
        poked::setting(256, 64, 18, 4096),
    );
    base::one(
        out,
        b"longest 1501",
        poked::LANE_1,
        poked::setting(256, 1501, 23, 4096),
    );
}

// Lane 1 with this setting of group 22: both lanes stand in its list 0.
fn together(out: Stdout, name: &[u8], setting: u64) {
    let mut t = [0u8; base::SIZE];
    base::base(&mut t);
    poked::put(&mut t, poked::LANE_1, setting);
    poked::put(&mut t, poked::GROUPS, 4194304);
    poked::byte(&mut t, poked::COUNTS + poked::ring(22, 0), 2);
    poked::byte(&mut t, poked::place(22, 0, 1), 1);
    base::say(out, name, &t);
}

pub fn sums(out: Stdout) {
    together(out, b"weights 1024", poked::setting(512, 1500, 22, 2048));
    together(out, b"weights 1025", poked::setting(513, 1500, 22, 2045));
}

pub fn rates(out: Stdout) {
    base::one(
        out,
        b"c one more",
        poked::LANE_1,
        poked::setting(256, 1500, 23, 4097),
    );
    base::one(
        out,
        b"c one less",
        poked::LANE_1,
        poked::setting(256, 1500, 23, 4095),
    );
    moved(
        out,
        b"group one more",
        poked::setting(256, 1500, 24, 4096),
        20971520,
        24,
    );
    together(out, b"group one less", poked::setting(256, 1500, 22, 4096));
}

// While a lane is idle, c and group mean nothing.
pub fn rates_unread(out: Stdout) {
    base::rest(
        out,
        b"an idle lane's c one more",
        poked::LANE_1,
        poked::setting(256, 1500, 23, 4097),
    );
    base::rest(
        out,
        b"an idle lane's group one more",
        poked::LANE_1,
        poked::setting(256, 1500, 24, 4096),
    );
    base::rest(
        out,
        b"an idle lane with no c and no group",
        poked::LANE_1,
        poked::setting(256, 1500, 0, 0),
    );
    base::rest(
        out,
        b"an idle lane of weight 1025, no c and no group",
        poked::LANE_1,
        poked::setting(1025, 1500, 0, 0),
    );
}

pub fn present(out: Stdout) {
    base::one(out, b"lane present, words 0", poked::PRESENT, 7);
    base::rest(out, b"no lane", poked::PRESENT, 0);
    base::rest_two(
        out,
        b"weight 1024 alone",
        poked::PRESENT,
        1,
        poked::LANE_0,
        poked::setting(1024, 64, 16, 1024),
    );
    base::rest_two(
        out,
        b"weight 1025 alone",
        poked::PRESENT,
        1,
        poked::LANE_0,
        poked::setting(1025, 64, 16, 1024),
    );
}

// A record's length is kept less one in 16 bits, so each number there is a length; 0 is none of them.
pub fn lengths(out: Stdout) {
    base::sized(out, b"length 1", 1, 0, 1);
    base::sized(out, b"length 1500", 1, 0, 1500);
    base::sized(out, b"length 1501", 1, 0, 1501);
    base::sized(out, b"length 32769", 1, 0, 32769);
    base::sized(out, b"length 65536", 1, 0, 65536);
    base::sized(out, b"second length 1501", 0, 1, 1501);
}

// Every place of a lane that holds records has a length within the lane's numbers, a record there or not.
pub fn places(out: Stdout) {
    base::sized(out, b"next place of 1500, no record there", 1, 1, 1500);
    base::sized(out, b"next place of 1501, no record there", 1, 1, 1501);
    base::sized(out, b"middle place of 1501, no record there", 1, 30, 1501);
    base::sized(out, b"last place of 1501, no record there", 1, 63, 1501);
    base::sized(out, b"last place of 65536, no record there", 1, 63, 65536);
    base::sized(out, b"last place of lane 0 of 1501", 0, 63, 1501);
}

// An idle lane's places, and those of a lane that is not in the setup, mean nothing.
pub fn places_unread(out: Stdout) {
    base::sized(out, b"an absent lane's place of 65536", 2, 0, 65536);
    let mut t = [0u8; base::SIZE];
    base::idle(&mut t);
    poked::length(&mut t, 0, 0, 1501);
    poked::length(&mut t, 1, 63, 65536);
    base::say(out, b"idle lanes' places of 1501 and 65536", &t);
}

// The depth number is the whole of its word.
pub fn depths(out: Stdout) {
    base::one(out, b"depth 0", poked::DEPTH, 0);
    base::one(out, b"depth 16", poked::DEPTH, 16);
    base::one(out, b"depth 63", poked::DEPTH, 63);
    base::one(out, b"depth 65", poked::DEPTH, 65);
    base::one(out, b"depth 2^32 + 64", poked::DEPTH, 4294967360);
    base::rest(out, b"depth 16, nothing held", poked::DEPTH, 16);
}

pub fn rings(out: Stdout) {
    base::one(
        out,
        b"64 records",
        poked::LANE_1 + poked::RING,
        64 * poked::ROOM,
    );
    base::one(
        out,
        b"65 records",
        poked::LANE_1 + poked::RING,
        65 * poked::ROOM,
    );
    base::one(
        out,
        b"held lane counted idle",
        poked::LANE_1 + poked::RING,
        0,
    );
    base::one(
        out,
        b"another first place",
        poked::LANE_1 + poked::RING,
        63 + poked::ROOM,
    );
    base::one(
        out,
        b"ring past its end",
        poked::LANE_1 + poked::RING,
        63 + 2 * poked::ROOM,
    );
}

// The same ring, and its first record over the longest.
pub fn ring_over(out: Stdout) {
    let mut t = [0u8; base::SIZE];
    base::base(&mut t);
    poked::put(&mut t, poked::LANE_1 + poked::RING, 63 + 2 * poked::ROOM);
    poked::record(&mut t, 1, 63, 9, 1501);
    base::say(out, b"ring past its end, length 1501", &t);
}
