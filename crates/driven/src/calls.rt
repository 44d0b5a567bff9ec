// The public calls, each with its answer printed.
use std::io::Stdout;
use units::Bytes;

// Records that a lane holds at most.
pub const ROOM: u32 = 64;

pub fn make(out: Stdout, setup: &[u8], t: &mut [u8]) {
    printed::making(out, scheduler::make(setup, t));
}

pub fn put(out: Stdout, t: &mut [u8], lane: u8, mark: u32, length: u64) {
    printed::answer(out, scheduler::put(t, lane, 0, mark, Bytes(length)));
}

// A put with a train.
pub fn put_train(out: Stdout, t: &mut [u8], lane: u8, train: u8, mark: u32, length: u64) {
    printed::answer(out, scheduler::put(t, lane, train, mark, Bytes(length)));
}

pub fn take(out: Stdout, t: &mut [u8]) {
    printed::answer(out, scheduler::take(t));
}

pub fn look(out: Stdout, t: &[u8]) {
    printed::answer(out, scheduler::look(t));
}

pub fn sets(out: Stdout, t: &[u8]) {
    printed::answer(out, scheduler::sets(t));
}

pub fn lag(out: Stdout, t: &[u8], lane: u8) {
    printed::answer(out, scheduler::lag(t, lane));
}

pub fn restart(out: Stdout, t: &mut [u8]) {
    printed::answer(out, scheduler::restart(t));
}

// Every call once.
pub fn every(out: Stdout, t: &mut [u8]) {
    put(out, t, 0, 9, 100);
    take(out, t);
    look(out, t);
    sets(out, t);
    lag(out, t, 0);
    restart(out, t);
}

// `n` puts of 100 bytes to a lane, with the marks 0, 1, ..
pub fn fill(out: Stdout, t: &mut [u8], lane: u8, n: u32) {
    for i in 0..n {
        put(out, t, lane, i, 100);
    }
}

// The same for a train.
pub fn fill_train(out: Stdout, t: &mut [u8], lane: u8, train: u8, n: u32) {
    for i in 0..n {
        put_train(out, t, lane, train, i, 100);
    }
}

// `n` takes.
pub fn drain(out: Stdout, t: &mut [u8], n: u32) {
    for _ in 0..n {
        take(out, t);
    }
}

// A look and a take, the record with its train each time.
fn serve(out: Stdout, t: &mut [u8]) {
    printed::answer_with_train(out, scheduler::look(t));
    printed::answer_with_train(out, scheduler::take(t));
}

// `n` of them.
pub fn served(out: Stdout, t: &mut [u8], n: u32) {
    for _ in 0..n {
        serve(out, t);
    }
}
