// Writes answers in the words of a session (R10.12), a line to each: for the programs that make calls and print what they answer.
//
// No line here knows whether a lane is shared. `answer` leaves the train out, `answer_with_train` writes it behind every record.
#![tactic(auto)]

pub use printed_plan::{number, refusal, word};
use rules::{Answer, Record, Refusal, SetWords};
use std::io::Stdout;

pub fn line(out: Stdout, w: &[u8]) {
    word(out, w);
    word(out, b"\n");
}

fn record(out: Stdout, before: &[u8], r: Record) {
    word(out, before);
    let _ = print!(out; "{} {} {}", r.lane, r.mark, r.length.0);
}

fn words(out: Stdout, w: SetWords) {
    let _ = print!(out; "sets {} {} {} {}", w.er, w.ir, w.eb, w.ib);
}

fn lag(out: Stdout, z: i64) {
    let _ = print!(out; "lag {z}");
}

fn put_ok(out: Stdout, n: u64) {
    number(out, b"put ok ", n);
}

fn said(out: Stdout, a: Result<Answer, Refusal>) {
    match a {
        Ok(Answer::Accepted(n)) => put_ok(out, n),
        Ok(Answer::Taken(r)) => record(out, b"take ", r),
        Ok(Answer::Seen(r)) => record(out, b"look ", r),
        Ok(Answer::Sets(w)) => words(out, w),
        Ok(Answer::Lag(z)) => lag(out, z),
        Ok(Answer::Restarted) => word(out, b"restart ok"),
        Err(x) => refusal(out, x),
    }
}

// What a call answered.
pub fn answer(out: Stdout, a: Result<Answer, Refusal>) {
    said(out, a);
    word(out, b"\n");
}

fn train(out: Stdout, r: Record) {
    number(out, b" ", r.train as u64);
}

// The train of a record, where the answer is one.
fn of_train(out: Stdout, a: Result<Answer, Refusal>) {
    match a {
        Ok(Answer::Taken(r)) => train(out, r),
        Ok(Answer::Seen(r)) => train(out, r),
        _ => {}
    }
}

// What a call answered, a record with its train behind it.
pub fn answer_with_train(out: Stdout, a: Result<Answer, Refusal>) {
    said(out, a);
    of_train(out, a);
    word(out, b"\n");
}

fn made(out: Stdout, m: Result<usize, Refusal>) {
    match m {
        Ok(n) => number(out, b"lanes ", n as u64),
        Err(x) => refusal(out, x),
    }
}

// What making answered.
pub fn making(out: Stdout, m: Result<usize, Refusal>) {
    made(out, m);
    word(out, b"\n");
}
