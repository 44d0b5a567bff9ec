// Shared lanes (R18): the trains' turns, refusals 70 and 71 with the order of the tests, and a round that does not agree with the trains. The
// crate `bad_tables` has a case for each condition of a good shared lane.
use driven::{bytes, calls};
use std::io::Stdout;

// The setup of R16.1 with a shared lane 0.
fn setup(out: Stdout, t: &mut [u8]) {
    calls::make(
        out,
        b"\x01\x00\x02\x00\x01\x10\x00\x05\x00\x02\x00\x05\xDC\x12\x00\x01\x00\x10\x00\x05\x01\x01\x00\x05\xDC\x7F\x00\x00",
        t,
    );
}

// Train 3 is in turn; train 0, by a put that names none, and train 7 stand behind it. Lane 1 knows train 0 alone.
fn puts(out: Stdout, t: &mut [u8]) {
    calls::put_train(out, t, 0, 3, 1, 1000);
    calls::put_train(out, t, 0, 3, 2, 1000);
    calls::put_train(out, t, 0, 3, 3, 400);
    calls::put(out, t, 0, 4, 1500);
    calls::put_train(out, t, 0, 7, 5, 64);
    calls::put_train(out, t, 1, 0, 6, 100);
}

// Train 3 keeps the rest of its turn, and train 7, once empty, begins anew.
fn more(out: Stdout, t: &mut [u8]) {
    calls::put_train(out, t, 0, 7, 7, 1500);
    calls::put_train(out, t, 0, 3, 8, 1500);
    calls::put_train(out, t, 0, 0, 9, 1);
}

pub fn turns(out: Stdout) {
    printed::line(out, b"- trains in turn");
    let mut t = [bytes::FILL; bytes::LONG];
    setup(out, &mut t);
    puts(out, &mut t);
    calls::served(out, &mut t, 4);
    more(out, &mut t);
    calls::served(out, &mut t, 6);
    calls::restart(out, &mut t);
    puts(out, &mut t);
    calls::served(out, &mut t, 2);
    bytes::tail(out, &t);
}

// 11 before 70, and 70 before 12.
pub fn refused(out: Stdout) {
    printed::line(out, b"- trains refused");
    let mut t = [bytes::FILL; bytes::LONG];
    setup(out, &mut t);
    let before = t;
    calls::put_train(out, &mut t, 2, 8, 1, 100);
    calls::put_train(out, &mut t, 0, 8, 1, 100);
    calls::put_train(out, &mut t, 0, 255, 1, 0);
    calls::put_train(out, &mut t, 1, 1, 1, 0);
    calls::put_train(out, &mut t, 0, 7, 1, 0);
    calls::put_train(out, &mut t, 0, 7, 1, 1501);
    bytes::compare(out, &before, &t);
}

// 12 before 71; each other train has its own room, and the lane that is not shared has its 64.
fn overfull(out: Stdout, t: &mut [u8]) {
    calls::put_train(out, t, 0, 5, 8, 100);
    calls::put_train(out, t, 0, 5, 8, 1501);
    calls::restart(out, t);
}

fn after_full(out: Stdout, t: &mut [u8]) {
    calls::fill(out, t, 0, 9);
    calls::fill(out, t, 1, 9);
    calls::served(out, t, 2);
    calls::put_train(out, t, 0, 5, 10, 100);
    calls::put_train(out, t, 0, 5, 11, 100);
    calls::put_train(out, t, 0, 5, 12, 100);
    calls::served(out, t, 26);
}

pub fn full(out: Stdout) {
    printed::line(out, b"- a full train");
    let mut t = [bytes::FILL; bytes::LONG];
    setup(out, &mut t);
    calls::fill_train(out, &mut t, 0, 5, 8);
    let before = t;
    overfull(out, &mut t);
    bytes::compare(out, &before, &t);
    after_full(out, &mut t);
}

// No train in the round while three hold records; while the lane is idle its round means nothing.
pub fn damaged(out: Stdout) {
    printed::line(out, b"- no train in the round");
    let mut t = [bytes::FILL; bytes::LONG];
    setup(out, &mut t);
    poked::put(&mut t, bytes::ROUND_0, 77);
    puts(out, &mut t);
    poked::put(&mut t, bytes::ROUND_0, 0);
    let before = t;
    calls::every(out, &mut t);
    bytes::compare(out, &before, &t);
}
