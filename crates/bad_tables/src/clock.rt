// V, S, F and R, and the framing bytes that move their edges.
use base_table as base;
use std::io::Stdout;

// Where no good table's clock comes: 2^62 + 2^44.
const CLOCK_END: u64 = 4611703610613432320;

// Lane 1 with this S.
fn late(out: Stdout, name: &[u8], s: u64, start: u64, b: usize, map: u64) {
    let mut t = [0u8; base::SIZE];
    base::base(&mut t);
    base::later(&mut t, s, start, b, map);
    base::say(out, name, &t);
}

pub fn edges(out: Stdout) {
    base::rest(out, b"V at its last", poked::CLOCK, CLOCK_END - 1);
    base::rest(out, b"V at its end", poked::CLOCK, CLOCK_END);
    late(out, b"S just below V + 2s", 16777215, 8388608, 1, 2);
    late(out, b"S at V + 2s", 16777216, 16777216, 2, 4);
}

pub fn starts(out: Stdout) {
    base::one(out, b"V at R's edge", poked::CLOCK, 9924608);
    base::one(out, b"V just below it", poked::CLOCK, 9924607);
}

pub fn idles(out: Stdout) {
    base::rest(
        out,
        b"idle F just below V + 2s",
        poked::LANE_0 + poked::TIME,
        8388607,
    );
    base::rest(
        out,
        b"idle F at V + 2s",
        poked::LANE_0 + poked::TIME,
        8388608,
    );
}

// Lane 0 is idle with this setting and F: the group that stands in its word means nothing, and the slot is that of its own.
fn idle_with(out: Stdout, name: &[u8], setting: u64, f: u64) {
    base::rest_two(
        out,
        name,
        poked::LANE_0,
        setting,
        poked::LANE_0 + poked::TIME,
        f,
    );
}

pub fn idle_slots(out: Stdout) {
    let bare = poked::setting(512, 1500, 0, 0);
    idle_with(
        out,
        b"no c and no group, idle F just below V + 2s",
        bare,
        8388607,
    );
    idle_with(out, b"no c and no group, idle F at V + 2s", bare, 8388608);
    idle_with(
        out,
        b"group one more, idle F at V + 2s",
        poked::setting(512, 1500, 23, 2048),
        8388608,
    );
    let least = poked::setting(512, 64, 0, 0);
    idle_with(out, b"longest 64, idle F just below V + 2s", least, 262143);
    idle_with(out, b"longest 64, idle F at V + 2s", least, 262144);
}

// Lane 0 alone, with the whole weight and the lowest group: its two slots are the fewest of all.
pub fn lowest_slots(out: Stdout) {
    let mut t = [0u8; base::SIZE];
    base::idle(&mut t);
    poked::put(&mut t, poked::PRESENT, 1);
    poked::put(&mut t, poked::LANE_0, poked::setting(1024, 64, 0, 0));
    poked::put(&mut t, poked::LANE_0 + poked::TIME, 131071);
    base::say(out, b"group 16, idle F just below V + 2s", &t);
    poked::put(&mut t, poked::LANE_0 + poked::TIME, 131072);
    base::say(out, b"group 16, idle F at V + 2s", &t);
}

// Lane 0 has its S a slot behind V; lane 1 too, or not.
pub fn eligible(out: Stdout) {
    let mut t = [0u8; base::SIZE];
    base::base(&mut t);
    poked::put(&mut t, poked::LANE_0 + poked::TIME, 4194304);
    poked::group(&mut t, 22, 4194304, 2);
    poked::alone(&mut t, 22, 1, 0);
    base::say(out, b"one lane eligible", &t);
    base::later(&mut t, 8388608, 8388608, 1, 2);
    base::say(out, b"no lane eligible", &t);
}

// The line's framing bytes: the whole of word 4, at most 64, and charged in the group and in R's edge.
pub fn framings(out: Stdout) {
    base::one(out, b"framing 64", poked::FRAMING, 64);
    base::one(out, b"framing 65", poked::FRAMING, 65);
    base::one(out, b"framing 256", poked::FRAMING, 256);
    base::one(
        out,
        b"framing's highest bit",
        poked::FRAMING,
        9223372036854775808,
    );
}

// Lane 1 holds a record of 64 bytes, its longest, with group `g` and its list there; `groups` is the word of the groups that have lanes.
fn short(out: Stdout, name: &[u8], g: usize, groups: u64, framing: u64) {
    let mut t = [0u8; base::SIZE];
    base::base(&mut t);
    poked::put(
        &mut t,
        poked::LANE_1,
        poked::setting(256, 64, g as u64, 4096),
    );
    poked::length(&mut t, 1, 0, 64);
    poked::put(&mut t, poked::FRAMING, framing);
    poked::put(&mut t, poked::GROUPS, groups);
    poked::group(&mut t, g, 0, 1);
    poked::alone(&mut t, g, 0, 1);
    base::say(out, name, &t);
}

pub fn framed(out: Stdout) {
    short(out, b"group of the longest, framing 0", 18, 4456448, 0);
    short(out, b"group of the longest, framing 1", 18, 4456448, 1);
    short(out, b"group of the longest and framing 1", 19, 4718592, 1);
    base::two(
        out,
        b"V at R's edge, framing 64",
        poked::CLOCK,
        9990144,
        poked::FRAMING,
        64,
    );
    base::two(
        out,
        b"V just below it, framing 64",
        poked::CLOCK,
        9990143,
        poked::FRAMING,
        64,
    );
}
