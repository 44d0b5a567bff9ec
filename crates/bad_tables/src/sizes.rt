// Bytes that are too short, or longer than a table.
use base_table as base;
use std::io::Stdout;

pub fn sizes(out: Stdout) {
    let mut t = [0u8; base::SIZE + 1];
    base::say(out, b"all zeros", &t);
    base::base(&mut t);
    base::say(out, b"one byte long", &t);
    base::part(out, b"exact size", &t, base::SIZE);
    base::part(out, b"one byte short", &t, base::SIZE - 1);
    shorter(out, &t);
    let ones = [255u8; base::SIZE];
    base::say(out, b"all ones", &ones);
}

// No part may be left out, the kept bytes neither.
fn shorter(out: Stdout, t: &[u8]) {
    base::part(out, b"without the kept bytes", t, poked::KEPT);
    base::part(out, b"without the trains", t, poked::TRAINS);
    base::part(out, b"without the marks", t, poked::MARKS);
    base::part(out, b"without the lists", t, poked::LISTS);
    base::part(out, b"empty", t, 0);
}
