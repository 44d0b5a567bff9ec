// The clock taken back (R5). The clock word of a table that holds nothing is set near 2^61, or to its last value: that is a good table of other
// origin, since an idle lane's F need only lie below V + 2s.
use driven::{bytes, calls, tables};
use std::io::Stdout;

// 2^61, from which on a put takes the clock back.
const FAR: u64 = 2305843009213693952;

// A good table's last clock: 2^62 + 2^44 - 1.
const LAST: u64 = 4611703610613432319;

// What refused puts and the calls that change nothing say.
fn looks(out: Stdout, t: &mut [u8]) {
    calls::put(out, t, 2, 1, 100);
    calls::put(out, t, 1, 1, 0);
    calls::look(out, t);
    calls::sets(out, t);
    calls::lag(out, t, 0);
    calls::lag(out, t, 1);
}

// None of them takes the clock back.
fn left(out: Stdout, t: &mut [u8]) {
    looks(out, t);
    calls::restart(out, t);
    bytes::times(out, t);
}

fn anew(out: Stdout, t: &mut [u8]) {
    calls::restart(out, t);
    bytes::times(out, t);
    bytes::tail(out, t);
}

pub fn at_last(out: Stdout) {
    printed::line(out, b"- clock at its last value");
    let mut t = [bytes::FILL; bytes::LONG];
    tables::setup(out, &mut t);
    poked::put(&mut t, 0, LAST);
    let before = t;
    looks(out, &mut t);
    calls::take(out, &mut t);
    bytes::compare(out, &before, &t);
    calls::put(out, &mut t, 0, 1, 100);
    bytes::times(out, &t);
    calls::take(out, &mut t);
    anew(out, &mut t);
}

// Lane 0 is idle, with an F of long ago; lane 1 waits, and a take brings the clock to 2^61.
fn waiting(out: Stdout, t: &mut [u8]) {
    calls::put(out, t, 0, 1, 100);
    calls::take(out, t);
    poked::put(t, 0, FAR - 1);
    calls::fill(out, t, 1, 3);
    bytes::times(out, t);
    calls::take(out, t);
}

pub fn taken_back(out: Stdout) {
    printed::line(out, b"- clock taken back");
    let mut t = [bytes::FILL; bytes::LONG];
    tables::setup(out, &mut t);
    waiting(out, &mut t);
    left(out, &mut t);
    calls::put(out, &mut t, 1, 3, 100);
    bytes::times(out, &t);
    looks(out, &mut t);
    calls::put(out, &mut t, 0, 9, 100);
    bytes::times(out, &t);
    calls::drain(out, &mut t, 5);
    anew(out, &mut t);
}

// Once nothing is held any more, a second time.
fn again(out: Stdout, t: &mut [u8]) {
    poked::put(t, 0, FAR + 12345);
    calls::put(out, t, 63, 11, 1500);
    calls::put(out, t, 0, 12, 1500);
    bytes::times(out, t);
    tables::looks_and_takes(out, t, 3);
    bytes::tail(out, t);
}

pub fn groups(out: Stdout) {
    printed::line(out, b"- clock taken back with four groups");
    let mut t = [bytes::FILL; bytes::LONG];
    tables::four_lanes(out, &mut t);
    poked::put(&mut t, 0, FAR - 1000);
    tables::first(out, &mut t);
    tables::more(out, &mut t);
    tables::looks_and_takes(out, &mut t, 3);
    calls::put(out, &mut t, 1, 10, 64);
    bytes::times(out, &t);
    tables::looks_and_takes(out, &mut t, 8);
    again(out, &mut t);
}
