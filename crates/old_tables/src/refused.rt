// What is refused: 7 before 10, and tables that were not good by one condition at a time.
use crate::{bytes, over};
use std::io::Stdout;

pub fn room(out: Stdout) {
    let mut old = [0u8; bytes::SIZE];
    let mut short = [over::MARK; 65535];
    over::over(out, b"no table, too little room", &old, &mut short);
    bytes::base(&mut old);
    over::over(out, b"too little room", &old, &mut short);
    let mut new = [over::MARK; 65536];
    over::over(out, b"just enough", &old, &mut new);
}

// The session's table without its last byte.
pub fn cut(out: Stdout) {
    let mut old = [0u8; 45055];
    bytes::base(&mut old);
    over::only(out, b"old table too short", &old);
    let byte = [0u8; 1];
    over::only(out, b"one byte", &byte);
}

// The session's table with word `i` changed.
fn one(out: Stdout, name: &[u8], i: usize, v: u64) {
    let mut old = [0u8; bytes::SIZE];
    bytes::base(&mut old);
    poked::put(&mut old, i, v);
    over::only(out, name, &old);
}

pub fn records(out: Stdout) {
    one(out, b"length 0", bytes::RECORDS, bytes::record(1, 0));
    one(out, b"length 1500", bytes::RECORDS, bytes::record(1, 1500));
    one(out, b"length 1501", bytes::RECORDS, bytes::record(1, 1501));
    one(
        out,
        b"length 65536 + 1000",
        bytes::RECORDS,
        bytes::record(1, 66536),
    );
    one(out, b"17 records", poked::LANE_0 + 2, bytes::ring(0, 17));
}

pub fn rows(out: Stdout) {
    one(
        out,
        b"c one more",
        poked::LANE_0,
        poked::setting(512, 1500, 22, 2049),
    );
    one(
        out,
        b"c one less",
        poked::LANE_0,
        poked::setting(512, 1500, 22, 2047),
    );
    one(
        out,
        b"c with its top bit",
        poked::LANE_0,
        poked::setting(512, 1500, 22, 8390656),
    );
    one(
        out,
        b"longest 1501",
        poked::LANE_0,
        poked::setting(512, 1501, 22, 2048),
    );
    one(out, b"framing 64", poked::FRAMING, 64);
    one(out, b"framing 65", poked::FRAMING, 65);
}

// Lane 0 with this setting of group `g`, and its list there; `groups` is the word of the groups that have lanes.
fn grouped(out: Stdout, name: &[u8], setting: u64, groups: u64, g: usize) {
    let mut old = [0u8; bytes::SIZE];
    bytes::base(&mut old);
    poked::put(&mut old, poked::LANE_0, setting);
    poked::put(&mut old, poked::GROUPS, groups);
    bytes::list(&mut old, g, 0, 1, 0, 0);
    over::only(out, name, &old);
}

pub fn groups(out: Stdout) {
    grouped(
        out,
        b"weights 1024",
        poked::setting(768, 1500, 21, 1366),
        10485760,
        21,
    );
    grouped(
        out,
        b"weights 1025",
        poked::setting(769, 1500, 21, 1364),
        10485760,
        21,
    );
    grouped(
        out,
        b"group one less",
        poked::setting(512, 1500, 21, 2048),
        10485760,
        21,
    );
}

// Lane 0 with this S, in list `b` of its group.
fn started(out: Stdout, name: &[u8], s: u64, b: u32) {
    let mut old = [0u8; bytes::SIZE];
    bytes::base(&mut old);
    poked::put(&mut old, poked::LANE_0 + 1, s);
    bytes::list(&mut old, 22, b, 1, 0, 0);
    over::only(out, name, &old);
}

// Lane 1 idle with this F, at this V.
fn idle(out: Stdout, name: &[u8], v: u64, f: u64) {
    let mut old = [0u8; bytes::SIZE];
    bytes::idle(&mut old);
    poked::put(&mut old, poked::CLOCK, v);
    poked::put(&mut old, poked::LANE_0 + 5, f);
    over::only(out, name, &old);
}

pub fn times(out: Stdout) {
    started(out, b"S just below two slots ahead", 8388607, 1);
    started(out, b"S two slots ahead", 8388608, 2);
    one(out, b"V as far ahead as it may be", poked::CLOCK, 9924607);
    one(out, b"V one further", poked::CLOCK, 9924608);
    idle(out, b"F two slots ahead", 0, 16777216);
    idle(out, b"clock at its end", 4611690416473899008, 0);
}

pub fn lists(out: Stdout) {
    one(out, b"no lane", poked::PRESENT, 0);
    one(out, b"a group without its bit", poked::GROUPS, 4194304);
    one(out, b"a group that has no lane", poked::GROUPS, 29360128);
    one(out, b"a back that is no whole slot", poked::BACK, 5);
}

// List 0 of group 22 with `n` lanes, `first` and lane 0.
fn listed(out: Stdout, name: &[u8], n: u8, first: u8) {
    let mut old = [0u8; bytes::SIZE];
    bytes::base(&mut old);
    bytes::list(&mut old, 22, 0, n, first, 0);
    over::only(out, name, &old);
}

pub fn lanes(out: Stdout) {
    listed(out, b"a lane twice", 2, 0);
    listed(out, b"another lane", 1, 5);
}
