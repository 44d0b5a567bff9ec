// The setup of R16.1 and the three puts of R16.3, and a line of four groups.
use crate::calls;
use std::io::Stdout;

// R16.1: lane 0 of weight 512, lane 1 of weight 256, both of longest 1,500.
pub fn setup(out: Stdout, t: &mut [u8]) {
    calls::make(
        out,
        b"\x01\x00\x02\x00\x01\x10\x00\x05\x00\x02\x00\x05\xDC\x10\x00\x05\x01\x01\x00\x05\xDC\x7F\x00\x00",
        t,
    );
}

// The session's three puts.
pub fn puts(out: Stdout, t: &mut [u8]) {
    calls::put(out, t, 0, 1, 1000);
    calls::put(out, t, 1, 2, 1000);
    calls::put(out, t, 0, 3, 500);
}

// Lanes 0, 1, 2 and 63 of weights 600, 300, 100 and 1, and longest 1,500, 64, 199 and 1,500: groups 22, 18, 21 and 31.
pub fn four_lanes(out: Stdout, t: &mut [u8]) {
    calls::make(
        out,
        b"\x01\x00\x02\x00\x01\x10\x00\x03\x00\x02\x58\x10\x00\x05\x01\x01\x2C\x00\x40\x10\x00\x05\x02\x00\x64\x00\xC7\x10\x00\x03\x3F\x00\x01\x7F\x00\x00",
        t,
    );
}

pub fn first(out: Stdout, t: &mut [u8]) {
    calls::put(out, t, 63, 1, 1500);
    calls::put(out, t, 63, 2, 64);
    calls::put(out, t, 2, 3, 199);
    calls::put(out, t, 2, 4, 199);
}

pub fn more(out: Stdout, t: &mut [u8]) {
    calls::put(out, t, 2, 5, 1);
    calls::put(out, t, 1, 6, 64);
    calls::put(out, t, 1, 7, 64);
    calls::put(out, t, 0, 8, 1500);
    calls::put(out, t, 0, 9, 1500);
}

// What the calls that change nothing say, before each take.
fn look_and_take(out: Stdout, t: &mut [u8]) {
    calls::sets(out, t);
    calls::lag(out, t, 0);
    calls::lag(out, t, 2);
    calls::look(out, t);
    calls::take(out, t);
}

pub fn looks_and_takes(out: Stdout, t: &mut [u8], n: u32) {
    for _ in 0..n {
        look_and_take(out, t);
    }
}
