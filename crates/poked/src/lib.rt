// A lent table's words and bytes, written behind the library's back: for tests. The places are those of docs/TABLE.md, and the library's own functions are not
// used but for storing a word. What lies outside the table is not written, so that no test has to prove where it writes.
#![tactic(auto)]

ghost use Rattle.std.specs.Prelude.{◌<◌};

use words::set_word;

// The words up to the rings of the slot lists, and how many bytes these are.
const WORDS: usize = 1408;

const BYTES: usize = 11264;

// The words of the clock, of the present lanes, the first and the last free one below the rows, and those of the depth number and of the line's framing bytes.
pub const CLOCK: usize = 0;

pub const PRESENT: usize = 1;

pub const FREE: usize = 2;

pub const LAST_FREE: usize = 79;

pub const DEPTH: usize = 3;

pub const FRAMING: usize = 4;

// The first word of each lane's row, and where the parts of a row lie from there: setting, clock word, ring, and the round of a shared lane.
pub const LANE_0: usize = 80;

pub const LANE_1: usize = 84;

pub const LANE_2: usize = 88;

pub const TIME: usize = 1;

pub const RING: usize = 2;

pub const ROUND: usize = 3;

// Places of a lane, which is the depth number too. A ring word is the first place and this many times the number of records.
pub const ROOM: u64 = 64;

// The words of the groups that have lanes and of what was taken off the clock; the first and the last free one behind them; those of group 0's start and
// lists, if there were a group 0.
pub const GROUPS: usize = 1360;

pub const BACK: usize = 1361;

pub const FREE_OF_LISTS: usize = 1362;

pub const LAST_FREE_OF_LISTS: usize = 1375;

pub const STARTS: usize = 1360;

pub const MAPS: usize = 1376;

// The first byte of the lengths, of the slot lists, of the first ring's first place, number and places, of the marks, of the shared lanes' trains, and of the
// bytes that are kept behind them.
const LENGTHS: usize = 2688;

pub const LISTS: usize = 10880;

pub const HEADS: usize = 11264;

pub const COUNTS: usize = 11776;

pub const PLACES: usize = 12288;

pub const MARKS: usize = 45056;

pub const TRAINS: usize = 61440;

pub const KEPT: usize = 63488;

// 2^16, 2^32 and 2^40: where the parts of a setting word begin. 2^63 says that trains share the lane.
const WEIGHT: u64 = 65536;

const GROUP: u64 = 4294967296;

const RATE: u64 = 1099511627776;

const SHARED: u64 = 9223372036854775808;

// 2^32: where the number of trains begins in a round.
const NAMED: u64 = 4294967296;

pub fn put(t: &mut [u8], i: usize, v: u64) {
    if i < WORDS {
        if t.len() >= BYTES {
            set_word(t, i, v);
        }
    }
}

pub fn byte(t: &mut [u8], a: usize, v: u8) {
    if a < t.len() {
        t[a] = v;
    }
}

pub fn setting(weight: u64, longest: u64, group: u64, c: u64) -> u64 {
    if weight < 65536 {
        if longest < 65536 {
            if group < 256 {
                if c < 16777216 {
                    return longest + weight * WEIGHT + group * GROUP + c * RATE;
                }
            }
        }
    }
    0
}

// The same of a lane that trains share.
pub fn shared(weight: u64, longest: u64, group: u64, c: u64) -> u64 {
    let plain = setting(weight, longest, group, c);
    if plain < SHARED {
        return plain + SHARED;
    }
    plain
}

// Lane 0's round names so many trains, four bits each, the one in turn lowest.
pub fn round(t: &mut [u8], named: u64, order: u64) {
    if named < 16 {
        if order < NAMED {
            put(t, LANE_0 + ROUND, order + named * NAMED);
        }
    }
}

// Train `j` of lane 0: its first place, how many records it holds, and its deficit.
pub fn train(t: &mut [u8], j: usize, head: u64, count: u64, deficit: u64) {
    if j < 8 {
        if head < 8 {
            if count < 16 {
                if deficit < 65536 {
                    let n = head + 8 * count + 128 * deficit;
                    let a = TRAINS + 4 * j;
                    byte(t, a, (n % 256) as u8);
                    byte(t, a + 1, (n / 256 % 256) as u8);
                    byte(t, a + 2, (n / 65536 % 256) as u8);
                }
            }
        }
    }
}

// The number of lane `k`'s place `i` among the places of all lanes.
fn numbered(k: usize, i: usize) -> usize
    ensures { result < 4096 }
{
    if k < 64 {
        if i < 64 {
            return 64 * k + i;
        }
    }
    0
}

// Lane `k`'s place `i` has this length, which is kept less one: 1 to 65,536.
pub fn length(t: &mut [u8], k: usize, i: usize, n: u64) {
    if n > 0 {
        let a = LENGTHS + 2 * numbered(k, i);
        byte(t, a, ((n - 1) % 256) as u8);
        byte(t, a + 1, ((n - 1) / 256 % 256) as u8);
    }
}

// A byte of its mark.
pub fn mark(t: &mut [u8], k: usize, i: usize, v: u8) {
    byte(t, MARKS + 4 * numbered(k, i), v);
}

// Lane `k`'s place `i` holds a record.
pub fn record(t: &mut [u8], k: usize, i: usize, v: u8, n: u64) {
    mark(t, k, i, v);
    length(t, k, i, n);
}

// The ring of list `b` of group `g`.
pub fn ring(g: usize, b: usize) -> usize
    ensures { result < 512 }
{
    if g >= 16 {
        if g < 32 {
            if b < 32 {
                return 32 * (g - 16) + b;
            }
        }
    }
    0
}

// Place `j` of that ring.
pub fn place(g: usize, b: usize, j: usize) -> usize {
    if j < 64 {
        return PLACES + 64 * ring(g, b) + j;
    }
    PLACES
}

// Group `g` has lanes: its start, and the word of its lists.
pub fn group(t: &mut [u8], g: usize, start: u64, map: u64) {
    if g < 32 {
        put(t, STARTS + g, start);
        put(t, MAPS + g, map);
    }
}

// Lane `k` stands alone in list `b` of group `g`.
pub fn alone(t: &mut [u8], g: usize, b: usize, k: u8) {
    byte(t, COUNTS + ring(g, b), 1);
    byte(t, place(g, b, 0), k);
}
