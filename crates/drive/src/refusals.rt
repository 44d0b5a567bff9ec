// Refusals 1 to 7 and 50 to 54 of making, and 11, 12, 13, 15 and 16 of the calls, with the order of their tests; what a refusal leaves of the table.
use driven::{bytes, calls, tables};
use std::io::Stdout;

fn cut_or_unknown(out: Stdout, t: &mut [u8]) {
    calls::make(out, b"", t);
    calls::make(out, b"\x01\x00", t);
    calls::make(out, b"\x01\x00\x02\x00", t);
    calls::make(out, b"\x01\x00\x02\x00\x01", t);
    calls::make(out, b"\x01\x00\x02\x00\x01\x20\x00\x00", t);
    calls::make(out, b"\x01\x00\x03\x00\x01\x00", t);
}

fn out_of_order(out: Stdout, t: &mut [u8]) {
    calls::make(out, b"\x10\x00\x03\x00\x02\x00\x7F\x00\x00", t);
    calls::make(
        out,
        b"\x01\x00\x02\x00\x01\x01\x00\x02\x00\x01\x7F\x00\x00",
        t,
    );
    calls::make(out, b"\x01\x00\x02\x00\x01\x7F\x00\x00", t);
    calls::make(
        out,
        b"\x01\x00\x02\x00\x01\x10\x00\x03\x05\x00\x01\x10\x00\x03\x05\x00\x01\x7F\x00\x00",
        t,
    );
    calls::make(
        out,
        b"\x01\x00\x02\x00\x01\x10\x00\x03\x05\x00\x01\x7F\x00\x00\x00",
        t,
    );
}

fn outside(out: Stdout, t: &mut [u8]) {
    calls::make(out, b"\x01\x00\x02\x00\x03\x7F\x00\x00", t);
    calls::make(
        out,
        b"\x01\x00\x02\x00\x01\x10\x00\x03\x40\x00\x01\x7F\x00\x00",
        t,
    );
    calls::make(
        out,
        b"\x01\x00\x02\x00\x01\x10\x00\x03\x00\x00\x00\x7F\x00\x00",
        t,
    );
    calls::make(
        out,
        b"\x01\x00\x02\x00\x01\x10\x00\x05\x00\x00\x01\x00\x3F\x7F\x00\x00",
        t,
    );
    calls::make(
        out,
        b"\x01\x00\x02\x00\x01\x11\x00\x01\x41\x10\x00\x03\x00\x00\x01\x7F\x00\x00",
        t,
    );
    calls::make(
        out,
        b"\x01\x00\x02\x00\x01\x10\x00\x03\x00\x04\x00\x10\x00\x03\x01\x00\x01\x7F\x00\x00",
        t,
    );
}

pub fn making(out: Stdout) {
    printed::line(out, b"- making refused");
    let mut t = [bytes::FILL; bytes::LONG];
    let before = t;
    cut_or_unknown(out, &mut t);
    out_of_order(out, &mut t);
    outside(out, &mut t);
    bytes::compare(out, &before, &t);
}

// 11 before 12, lanes at the edges of the setup and of a byte, lengths at the edges of the lane's and of a number.
fn no_lane(out: Stdout, t: &mut [u8]) {
    calls::put(out, t, 2, 1, 100);
    calls::put(out, t, 63, 1, 100);
    calls::put(out, t, 64, 1, 100);
    calls::put(out, t, 255, 1, 0);
    calls::put(out, t, 0, 1, 0);
    calls::put(out, t, 0, 1, 1501);
    calls::put(out, t, 1, 1, 18446744073709551615);
}

// On a table that holds nothing.
fn nothing_held(out: Stdout, t: &mut [u8]) {
    calls::take(out, t);
    calls::look(out, t);
    calls::lag(out, t, 2);
    calls::lag(out, t, 64);
    calls::lag(out, t, 255);
}

pub fn calls(out: Stdout) {
    printed::line(out, b"- calls refused");
    let mut t = [bytes::FILL; bytes::LONG];
    tables::setup(out, &mut t);
    let before = t;
    no_lane(out, &mut t);
    nothing_held(out, &mut t);
    bytes::compare(out, &before, &t);
    calls::put(out, &mut t, 0, 1, 1500);
    calls::restart(out, &mut t);
}

// 12 before 13; another lane has its own room.
fn overfull(out: Stdout, t: &mut [u8]) {
    calls::put(out, t, 0, 64, 100);
    calls::put(out, t, 0, 64, 1501);
    calls::restart(out, t);
}

// R16.9: a lane is filled, refuses one more by 13, and has room again after a take.
pub fn full(out: Stdout) {
    printed::line(out, b"- a full lane");
    let mut t = [bytes::FILL; bytes::LONG];
    tables::setup(out, &mut t);
    calls::fill(out, &mut t, 0, calls::ROOM);
    let before = t;
    overfull(out, &mut t);
    bytes::compare(out, &before, &t);
    after_full(out, &mut t);
}

fn after_full(out: Stdout, t: &mut [u8]) {
    calls::put(out, t, 1, 65, 100);
    calls::take(out, t);
    calls::put(out, t, 0, 66, 100);
    calls::put(out, t, 0, 67, 100);
    calls::drain(out, t, calls::ROOM + 2);
}

// A byte too short: 7 comes before the setup's own refusals, and every call gives 10. At the fixed size, all is well.
pub fn sizes(out: Stdout) {
    printed::line(out, b"- sizes");
    let mut t = [bytes::FILL; bytes::SHORT];
    let before = t;
    tables::setup(out, &mut t);
    calls::make(out, b"", &mut t);
    calls::every(out, &mut t);
    bytes::compare(out, &before, &t);
    exact(out);
}

fn exact(out: Stdout) {
    let mut t = [bytes::FILL; scheduler::SIZE];
    tables::setup(out, &mut t);
    calls::every(out, &mut t);
}
