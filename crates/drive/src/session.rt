// The session of R16.3 by calls, what comes after it (R16.4), the one lane of R16.7, and lines of several groups.
use driven::{bytes, calls, tables};
use std::io::Stdout;

// R16.3: the clock and the finishes after the third take.
fn takes(out: Stdout, t: &mut [u8]) {
    calls::take(out, t);
    calls::lag(out, t, 1);
    calls::take(out, t);
    calls::take(out, t);
    bytes::times(out, t);
    calls::take(out, t);
}

// R16.4: S, V and lag after one more put; then F, once that record is taken.
fn late_put(out: Stdout, t: &mut [u8]) {
    calls::put(out, t, 0, 4, 100);
    bytes::times(out, t);
    calls::lag(out, t, 0);
    calls::lag(out, t, 1);
    calls::restart(out, t);
    calls::take(out, t);
    bytes::times(out, t);
}

// A restart once all is taken: the fresh table, with the setup kept.
fn anew(out: Stdout, t: &mut [u8]) {
    calls::restart(out, t);
    bytes::times(out, t);
    calls::look(out, t);
    calls::put(out, t, 1, 5, 1500);
    calls::put(out, t, 2, 5, 1500);
    calls::take(out, t);
    bytes::times(out, t);
}

pub fn session(out: Stdout) {
    printed::line(out, b"- session");
    let mut t = [bytes::FILL; bytes::LONG];
    tables::setup(out, &mut t);
    tables::puts(out, &mut t);
    calls::sets(out, &t);
    calls::look(out, &t);
    takes(out, &mut t);
    late_put(out, &mut t);
    anew(out, &mut t);
    bytes::tail(out, &t);
}

// R16.7: weight 1 and longest 64, alone.
pub fn one_lane(out: Stdout) {
    printed::line(out, b"- one lane");
    let mut t = [bytes::FILL; bytes::LONG];
    calls::make(
        out,
        b"\x01\x00\x02\x00\x01\x10\x00\x05\x00\x00\x01\x00\x40\x7F\x00\x00",
        &mut t,
    );
    calls::put(out, &mut t, 0, 7, 64);
    calls::take(out, &mut t);
    bytes::time(out, &t);
    calls::put(out, &mut t, 0, 8, 64);
    bytes::time(out, &t);
}

pub fn four_groups(out: Stdout) {
    printed::line(out, b"- four groups");
    let mut t = [bytes::FILL; bytes::LONG];
    tables::four_lanes(out, &mut t);
    tables::first(out, &mut t);
    tables::more(out, &mut t);
    tables::looks_and_takes(out, &mut t, 10);
    bytes::times(out, &t);
    bytes::tail(out, &t);
}

// Lanes 0, 1 and 2 of weights 16, 976 and 32, and longest 64, 1,500 and 64: groups 22, 21 and 21. Lane 0 waits while the others are served, until group 21
// has the later finish.
fn three_lanes(out: Stdout, t: &mut [u8]) {
    calls::make(
        out,
        b"\x01\x00\x02\x00\x01\x10\x00\x05\x00\x00\x10\x00\x40\x10\x00\x05\x01\x03\xD0\x05\xDC\x10\x00\x05\x02\x00\x20\x00\x40\x7F\x00\x00",
        t,
    );
    calls::put(out, t, 0, 1, 64);
    calls::put(out, t, 1, 2, 1500);
    calls::put(out, t, 1, 3, 1500);
    calls::put(out, t, 1, 4, 1500);
}

fn the_rest(out: Stdout, t: &mut [u8]) {
    calls::put(out, t, 1, 5, 1500);
    calls::put(out, t, 1, 6, 1500);
    calls::put(out, t, 2, 7, 64);
    calls::put(out, t, 2, 8, 64);
}

// Two records of lane 2 leave group 21 blocked and not eligible; a third moves the clock far enough that it is eligible and blocked.
pub fn blocked_groups(out: Stdout) {
    printed::line(out, b"- a blocked group");
    let mut t = [bytes::FILL; bytes::LONG];
    three_lanes(out, &mut t);
    the_rest(out, &mut t);
    tables::looks_and_takes(out, &mut t, 8);
    printed::line(out, b"- a blocked group that is eligible");
    three_lanes(out, &mut t);
    the_rest(out, &mut t);
    third(out, &mut t);
}

fn third(out: Stdout, t: &mut [u8]) {
    calls::put(out, t, 2, 9, 64);
    tables::looks_and_takes(out, t, 9);
}
