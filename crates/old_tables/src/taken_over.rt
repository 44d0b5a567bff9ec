// Tables that were good: what they became answers as they would have.
use crate::{bytes, over};
use driven::calls;
use std::io::Stdout;

pub fn session(out: Stdout) {
    let mut old = [0u8; bytes::SIZE];
    bytes::base(&mut old);
    let mut new = [over::MARK; over::ROOM];
    over::over(out, b"session", &old, &mut new);
    calls::drain(out, &mut new, 4);
}

// A full lane: the new one has room for more.
pub fn sixteen(out: Stdout) {
    let mut old = [0u8; bytes::SIZE];
    bytes::one_lane(&mut old, 0, 16);
    bytes::fill(&mut old);
    let mut new = [over::MARK; over::ROOM];
    over::over(out, b"16 records", &old, &mut new);
    calls::put(out, &mut new, 0, 16, 1500);
    calls::drain(out, &mut new, 18);
}

// A ring from place 14 on, over its end.
pub fn wrapped(out: Stdout) {
    let mut old = [0u8; bytes::SIZE];
    bytes::one_lane(&mut old, 14, 4);
    poked::put(&mut old, bytes::RECORDS + 14, bytes::record(21, 100));
    poked::put(&mut old, bytes::RECORDS + 15, bytes::record(22, 200));
    poked::put(&mut old, bytes::RECORDS, bytes::record(23, 300));
    poked::put(
        &mut old,
        bytes::RECORDS + 1,
        bytes::record(4294967295, 1500),
    );
    let mut new = [over::MARK; over::ROOM];
    over::over(out, b"ring over its end", &old, &mut new);
    calls::drain(out, &mut new, 5);
}

// Two lanes of one group and one R: the first of their list goes first.
pub fn tie(out: Stdout) {
    let mut old = [0u8; bytes::SIZE];
    bytes::base(&mut old);
    poked::put(
        &mut old,
        poked::LANE_0 + 4,
        poked::setting(512, 1500, 22, 2048),
    );
    poked::put(&mut old, poked::GROUPS, 4194304);
    bytes::list(&mut old, 22, 0, 2, 1, 0);
    let mut new = [over::MARK; over::ROOM];
    over::over(out, b"lane 1 before lane 0", &old, &mut new);
    calls::drain(out, &mut new, 4);
}

// F of idle lanes.
pub fn finishes(out: Stdout) {
    let mut old = [0u8; bytes::SIZE];
    bytes::idle(&mut old);
    poked::put(&mut old, poked::LANE_0 + 1, 3000);
    poked::put(&mut old, poked::LANE_0 + 5, 16777215);
    let mut new = [over::MARK; over::ROOM];
    over::over(out, b"idle lanes", &old, &mut new);
    calls::lag(out, &new, 0);
    calls::lag(out, &new, 1);
    calls::put(out, &mut new, 0, 7, 100);
    calls::lag(out, &new, 0);
}

// Ten framing bytes: 1,010 bytes are charged for the first record.
pub fn framed(out: Stdout) {
    let mut old = [0u8; bytes::SIZE];
    bytes::base(&mut old);
    poked::put(&mut old, poked::FRAMING, 10);
    let mut new = [over::MARK; over::ROOM];
    over::over(out, b"framing", &old, &mut new);
    calls::drain(out, &mut new, 1);
    calls::lag(out, &new, 0);
}

// What meant nothing then means nothing now: free words, a place without a record, a lane that is not in the setup.
pub fn spare(out: Stdout) {
    let mut old = [0u8; bytes::SIZE];
    bytes::base(&mut old);
    poked::put(&mut old, 2, 18446744073709551615);
    poked::put(&mut old, 3, 16);
    poked::put(&mut old, bytes::RECORDS + 5, 18446744073709551615);
    poked::put(&mut old, poked::LANE_0 + 8, 18446744073709551615);
    poked::put(&mut old, poked::LANE_0 + 10, 18446744073709551615);
    poked::put(&mut old, poked::BACK, 2147483648);
    let mut new = [over::MARK; over::ROOM];
    over::over(out, b"words that mean nothing", &old, &mut new);
    calls::drain(out, &mut new, 4);
}

// Bytes past the old table.
pub fn longer(out: Stdout) {
    let mut old = [0u8; 45064];
    poked::byte(&mut old, 45056, 255);
    bytes::base(&mut old);
    let mut new = [over::MARK; over::ROOM];
    over::over(out, b"old bytes to spare", &old, &mut new);
    calls::drain(out, &mut new, 1);
}

// V at its last value then, 2^62 + 2^42 - 1.
pub fn clock(out: Stdout) {
    let mut old = [0u8; bytes::SIZE];
    bytes::idle(&mut old);
    poked::put(&mut old, poked::CLOCK, 4611690416473899007);
    let mut new = [over::MARK; over::ROOM];
    over::over(out, b"last clock", &old, &mut new);
    calls::lag(out, &new, 0);
    calls::put(out, &mut new, 0, 7, 100);
}
