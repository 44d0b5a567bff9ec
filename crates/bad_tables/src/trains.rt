// Lanes that trains share: deficits, counts and the round. Each bad table stands beside a good one that differs by one number.
use base_table as base;
use std::io::Stdout;

// The row of lane 0 has so many records.
fn row(t: &mut [u8], held: u64) {
    if held < 256 {
        poked::put(t, poked::LANE_0 + poked::RING, held * poked::ROOM);
    }
}

// The base with a shared lane 0. Train 0, in turn with a deficit of 1,500, holds records of 1,000 and 500 bytes; train 3, behind it, one of 700.
fn lane(t: &mut [u8]) {
    base::base(t);
    poked::put(t, poked::LANE_0, poked::shared(512, 1500, 22, 2048));
    row(t, 3);
    poked::record(t, 0, 24, 4, 700);
    poked::round(t, 2, 48);
    poked::train(t, 0, 0, 2, 1500);
    poked::train(t, 3, 0, 1, 0);
}

// That lane with another number for train `j`, and so many records in its row.
fn one(out: Stdout, name: &[u8], held: u64, j: usize, head: u64, count: u64, deficit: u64) {
    let mut t = [0u8; base::SIZE];
    lane(&mut t);
    poked::train(&mut t, j, head, count, deficit);
    row(&mut t, held);
    base::say(out, name, &t);
}

// That lane with another round.
fn round(out: Stdout, name: &[u8], named: u64, order: u64) {
    let mut t = [0u8; base::SIZE];
    lane(&mut t);
    poked::round(&mut t, named, order);
    base::say(out, name, &t);
}

// That lane with another length at one of its places.
fn sized(out: Stdout, name: &[u8], i: usize, n: u64) {
    let mut t = [0u8; base::SIZE];
    lane(&mut t);
    poked::length(&mut t, 0, i, n);
    base::say(out, name, &t);
}

pub fn lanes(out: Stdout) {
    sized(out, b"a shared lane", 24, 700);
    sized(out, b"another train's length of 1500", 24, 1500);
    sized(out, b"another train's length of 1501", 24, 1501);
    sized(out, b"an empty train's place of 1501", 63, 1501);
}

// A train that holds nothing has no deficit; its first place may be any.
pub fn empty(out: Stdout) {
    one(out, b"an empty train from place 7 on", 3, 1, 7, 0, 0);
    one(out, b"an empty train with a deficit of 1", 3, 1, 0, 0, 1);
    one(out, b"an empty last train with one", 3, 7, 0, 0, 1);
}

// The deficit of the train in turn covers its first record, and is below twice the longest.
pub fn in_turn(out: Stdout) {
    one(
        out,
        b"in turn with its first record's length",
        3,
        0,
        0,
        2,
        1000,
    );
    one(out, b"in turn with one less", 3, 0, 0, 2, 999);
    one(out, b"in turn with 2999", 3, 0, 0, 2, 2999);
    one(out, b"in turn with twice the longest", 3, 0, 0, 2, 3000);
    one(out, b"in turn from place 1 on, with 500", 3, 0, 1, 2, 500);
    one(out, b"in turn from place 1 on, with 499", 3, 0, 1, 2, 499);
}

// That of any other train does not cover its first record.
pub fn waiting(out: Stdout) {
    one(out, b"another train with 699", 3, 3, 0, 1, 699);
    one(
        out,
        b"another train with its first record's length",
        3,
        3,
        0,
        1,
        700,
    );
    one(out, b"another train from place 7 on, with 0", 3, 3, 7, 1, 0);
    one(out, b"another train from place 7 on, with 1", 3, 3, 7, 1, 1);
}

// A train holds at most 8 records, and the lane's row counts those of all trains.
pub fn counts(out: Stdout) {
    one(out, b"a train of 8 records", 9, 0, 0, 8, 1500);
    one(out, b"a train of 9 records", 10, 0, 0, 9, 1500);
    one(out, b"a waiting train of 9 records", 11, 3, 0, 9, 0);
    one(out, b"a row with a record less", 2, 0, 0, 2, 1500);
    one(out, b"a row with a record more", 4, 0, 0, 2, 1500);
    one(out, b"a row past the lane's room", 65, 0, 0, 2, 1500);
}

// The round names each train that holds a record, once, and no other.
pub fn named(out: Stdout) {
    round(out, b"a holding train not in the round", 1, 0);
    round(out, b"the train in turn not in the round", 1, 3);
    round(out, b"an empty train in the round", 3, 1328);
    round(out, b"a train twice in the round", 3, 48);
    round(out, b"a train twice, and another not", 2, 0);
    round(out, b"no round", 0, 0);
    round(out, b"the other train in turn, with no deficit", 2, 3);
}

// The round's number names 8 trains at most, and has nothing behind those that it names.
pub fn rounds(out: Stdout) {
    round(out, b"train 11 in the round", 2, 176);
    round(out, b"more than the round names", 2, 304);
    round(out, b"a round of 9 trains", 9, 48);
    let mut t = [0u8; base::SIZE];
    lane(&mut t);
    poked::round(&mut t, 3, 1328);
    poked::train(&mut t, 5, 0, 1, 0);
    row(&mut t, 4);
    base::say(out, b"a round of 3 trains", &t);
}

// The words of trains and round mean nothing while the lane is idle.
pub fn unread(out: Stdout) {
    let mut t = [0u8; base::SIZE];
    base::idle(&mut t);
    poked::put(&mut t, poked::LANE_0, poked::shared(512, 1500, 22, 2048));
    base::say(out, b"an idle shared lane", &t);
    poked::round(&mut t, 9, 48);
    poked::train(&mut t, 0, 0, 9, 3000);
    base::say(out, b"with anything for its trains and its round", &t);
}
