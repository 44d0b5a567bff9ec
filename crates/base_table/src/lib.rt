// The table that the programs `bad_tables` and `bad_lists` change: the session of R16.3 after its three puts. Lane 0 (weight 512, longest 1,500,
// c 2,048, group 22) holds records of 1,000 and 500 bytes, lane 1 (weight 256, longest 1,500, c 4,096, group 23) one of 1,000; V and both S are 0, so each
// lane stands in list 0 of its group.
//
// It is written word by word and byte by byte (crate `poked`), and not by the library's own functions. Each case has a name, and is written with whether its
// table is good.
#![tactic(auto)]

use poked::{
    DEPTH, GROUPS, LANE_0, LANE_1, PRESENT, RING, ROOM, TIME, alone, byte, group, length, put,
    record, setting,
};
use std::io::Stdout;

// The fixed size of a table, in bytes.
pub const SIZE: usize = 65536;

// Lanes 0 and 1 of that session (R16.2), and nothing held.
pub fn idle(t: &mut [u8]) {
    put(t, PRESENT, 3);
    put(t, DEPTH, ROOM);
    put(t, LANE_0, setting(512, 1500, 22, 2048));
    put(t, LANE_1, setting(256, 1500, 23, 4096));
}

// Its three records.
fn records(t: &mut [u8]) {
    put(t, LANE_0 + RING, 2 * ROOM);
    put(t, LANE_1 + RING, ROOM);
    record(t, 0, 0, 1, 1000);
    record(t, 0, 1, 3, 500);
    record(t, 1, 0, 2, 1000);
}

// With them, each lane alone in a list of its group.
fn hold(t: &mut [u8]) {
    records(t);
    put(t, GROUPS, 12582912);
    group(t, 22, 0, 1);
    alone(t, 22, 0, 0);
    group(t, 23, 0, 1);
    alone(t, 23, 0, 1);
}

pub fn base(t: &mut [u8]) {
    idle(t);
    hold(t);
}

// Lane 1 has this S, which lies in slot `b` of its group; its list goes along.
pub fn later(t: &mut [u8], s: u64, start: u64, b: usize, map: u64) {
    put(t, LANE_1 + TIME, s);
    group(t, 23, start, map);
    alone(t, 23, b, 1);
}

// Writes a case's name, and whether its table is good.
pub fn say(out: Stdout, name: &[u8], t: &[u8]) {
    let _ = out.write_all(name);
    if paged::good_unit(t) {
        let _ = out.write_all(b" good\n");
    } else {
        let _ = out.write_all(b" bad\n");
    }
}

// The first `n` bytes of a table.
pub fn part(out: Stdout, name: &[u8], t: &[u8], n: usize) {
    if n <= t.len() {
        say(out, name, &t[..n]);
    }
}

// The base, or the idle table.
fn begin(t: &mut [u8], held: bool) {
    idle(t);
    if held {
        hold(t);
    }
}

// With two words changed.
fn changed(out: Stdout, name: &[u8], held: bool, i: usize, v: u64, j: usize, w: u64) {
    let mut t = [0u8; SIZE];
    begin(&mut t, held);
    put(&mut t, i, v);
    put(&mut t, j, w);
    say(out, name, &t);
}

// The base with word `i` changed.
pub fn one(out: Stdout, name: &[u8], i: usize, v: u64) {
    changed(out, name, true, i, v, i, v);
}

// The base with two words changed.
pub fn two(out: Stdout, name: &[u8], i: usize, v: u64, j: usize, w: u64) {
    changed(out, name, true, i, v, j, w);
}

// The idle table with word `i` changed.
pub fn rest(out: Stdout, name: &[u8], i: usize, v: u64) {
    changed(out, name, false, i, v, i, v);
}

// The idle table with two words changed.
pub fn rest_two(out: Stdout, name: &[u8], i: usize, v: u64, j: usize, w: u64) {
    changed(out, name, false, i, v, j, w);
}

// The base with the byte at `a` changed.
pub fn spot(out: Stdout, name: &[u8], a: usize, v: u8) {
    let mut t = [0u8; SIZE];
    base(&mut t);
    byte(&mut t, a, v);
    say(out, name, &t);
}

// The base with word `i` changed, and lane `k` alone in list `b` of group `g`.
pub fn filed(out: Stdout, name: &[u8], i: usize, v: u64, g: usize, b: usize, k: u8) {
    let mut t = [0u8; SIZE];
    base(&mut t);
    put(&mut t, i, v);
    alone(&mut t, g, b, k);
    say(out, name, &t);
}

// The base with the length of lane `k`'s place `i` changed.
pub fn sized(out: Stdout, name: &[u8], k: usize, i: usize, n: u64) {
    let mut t = [0u8; SIZE];
    base(&mut t);
    length(&mut t, k, i, n);
    say(out, name, &t);
}
