// A table's own words (docs/TABLE.md). A lane's clock word is S while it holds records and F while it is idle.
use std::io::Stdout;
use words::word;

// What a table is filled with before it is made.
pub const FILL: u8 = 165;

// Bytes of a table that is longer than the fixed size, and of one that is shorter.
pub const LONG: usize = scheduler::SIZE + 64;

pub const SHORT: usize = scheduler::SIZE - 1;

// Words up to the rings of the slot lists: those of the clock, of the depth number and of the groups that have lanes, a free one, lane 0's round, lane 1's
// setting, both lanes' clock words, and the first ones of their lengths, four in a word, each less one.
const WORDS: usize = 1408;

pub const CLOCK: usize = 0;

pub const FREE: usize = 2;

pub const DEPTH: usize = 3;

pub const TIME_0: usize = 81;

pub const ROUND_0: usize = 83;

pub const SETTING_1: usize = 84;

const TIME_1: usize = 85;

pub const LENGTHS_0: usize = 336;

pub const LENGTHS_1: usize = 352;

pub const GROUPS: usize = 1360;

fn cell(t: &[u8], i: usize) -> u64 {
    if i < WORDS {
        if t.len() >= scheduler::SIZE {
            return word(t, i);
        }
    }
    0
}

// Prints the clock, and lane 0's clock word.
pub fn time(out: Stdout, t: &[u8]) {
    printed::number(out, b"V ", cell(t, CLOCK));
    printed::number(out, b", lane 0 at ", cell(t, TIME_0));
    printed::line(out, b"");
}

// And lane 1's.
pub fn times(out: Stdout, t: &[u8]) {
    time(out, t);
    printed::number(out, b"lane 1 at ", cell(t, TIME_1));
    printed::line(out, b"");
}

fn kept(out: Stdout, same: bool) {
    if same {
        printed::line(out, b" kept");
    } else {
        printed::line(out, b" changed");
    }
}

// Whether two tables have the same bytes.
pub fn compare(out: Stdout, before: &[u8], t: &[u8]) {
    printed::word(out, b"table");
    kept(out, before == t);
}

fn tail_is(t: &[u8]) -> bool {
    t.iter().skip(scheduler::SIZE).all(|b| *b == FILL)
}

// Whether the bytes past the fixed size are those that were there before making.
pub fn tail(out: Stdout, t: &[u8]) {
    printed::word(out, b"rest");
    kept(out, tail_is(t));
}
