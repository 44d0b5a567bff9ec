// Damaged tables: 10 from every call, and no byte changed. The crate `bad_tables` has a case for each condition of a good table.
use driven::{bytes, calls, tables};
use std::io::Stdout;

// Where no good table's clock comes: 2^62 + 2^44.
const CLOCK_END: u64 = 4611703610613432320;

// Four quarters of 65,535: lengths of 65,536.
const ALL_ONES: u64 = 18446744073709551615;

// The session's table after its three puts, with word `i` changed.
fn with_word(out: Stdout, name: &[u8], i: usize, v: u64) {
    printed::line(out, name);
    let mut t = [bytes::FILL; bytes::LONG];
    tables::setup(out, &mut t);
    tables::puts(out, &mut t);
    poked::put(&mut t, i, v);
    let before = t;
    calls::every(out, &mut t);
    bytes::compare(out, &before, &t);
}

// Bytes that no call made.
fn never_made(out: Stdout) {
    printed::line(out, b"- never made");
    let mut t = [bytes::FILL; bytes::LONG];
    let before = t;
    calls::every(out, &mut t);
    bytes::compare(out, &before, &t);
}

pub fn damaged(out: Stdout) {
    never_made(out);
    with_word(out, b"- clock past its end", bytes::CLOCK, CLOCK_END);
    with_word(out, b"- depth of an older table", bytes::DEPTH, 16);
    with_word(out, b"- slot list left out", bytes::GROUPS, 4194304);
    with_word(out, b"- setting gone", bytes::SETTING_1, 0);
    with_word(out, b"- record over the longest", bytes::LENGTHS_1, 1500);
    with_word(
        out,
        b"- place over the longest",
        bytes::LENGTHS_1 + 15,
        ALL_ONES,
    );
    with_word(out, b"- start too late", bytes::TIME_0, 8388608);
    with_word(out, b"- unread word", bytes::FREE, 77);
}

// What stands in an idle lane's places means nothing, and does no harm once it holds records.
pub fn idle_places(out: Stdout) {
    printed::line(out, b"- places of an idle lane");
    let mut t = [bytes::FILL; bytes::LONG];
    tables::setup(out, &mut t);
    poked::put(&mut t, bytes::LENGTHS_0, ALL_ONES);
    poked::put(&mut t, bytes::LENGTHS_0 + 15, ALL_ONES);
    tables::puts(out, &mut t);
    calls::every(out, &mut t);
    calls::drain(out, &mut t, 3);
}
