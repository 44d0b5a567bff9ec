// The tables: the session of R16.3 after its three puts, and changes of it. Lane 0 (weight 512, longest 1,500, c 2,048, group 22) holds records of 1,000
// and 500 bytes, lane 1 (weight 256, longest 1,500, c 4,096, group 23) one of 1,000; V and both S are 0, so each lane stands in list 0 of its group.
use poked::{COUNTS, GROUPS, LANE_0, LANE_1, PRESENT, RING, byte, group, place, put, setting};

// The fixed size of such a table, in bytes.
pub const SIZE: usize = 45056;

// The first word of the records, 16 of a lane; a record's length begins at 2^32.
pub const RECORDS: usize = 336;

const HIGH: u64 = 4294967296;

pub fn record(mark: u32, length: u32) -> u64 {
    (mark as u64) + (length as u64) * HIGH
}

// `n` records from place `head` on.
pub fn ring(head: u8, n: u8) -> u64 {
    (head as u64) + 16 * (n as u64)
}

// List `b` of group `g`, 16 to 31, has `n` lanes, `first` and `second`, and no other list has any. With B = 0 it is that of the group's slot `b`.
pub fn list(t: &mut [u8], g: usize, b: u32, n: u8, first: u8, second: u8) {
    if g < 32 {
        if b < 32 {
            let i = b as usize;
            group(t, g, (b as u64) << (g as u32), 1u64 << b);
            byte(t, COUNTS + poked::ring(g, i), n);
            byte(t, place(g, i, 0), first);
            byte(t, place(g, i, 1), second);
        }
    }
}

// The two lanes, and nothing held.
pub fn idle(t: &mut [u8]) {
    put(t, PRESENT, 3);
    put(t, LANE_0, setting(512, 1500, 22, 2048));
    put(t, LANE_1, setting(256, 1500, 23, 4096));
}

// The session's three records.
fn records(t: &mut [u8]) {
    put(t, LANE_0 + RING, ring(0, 2));
    put(t, RECORDS, record(1, 1000));
    put(t, RECORDS + 1, record(3, 500));
    put(t, LANE_1 + RING, ring(0, 1));
    put(t, RECORDS + 16, record(2, 1000));
}

pub fn base(t: &mut [u8]) {
    idle(t);
    records(t);
    put(t, GROUPS, 12582912);
    list(t, 22, 0, 1, 0, 0);
    list(t, 23, 0, 1, 1, 0);
}

// Lane 0's 16 places: marks and lengths rise.
pub fn fill(t: &mut [u8]) {
    for i in 0..16 {
        put(t, RECORDS + (i as usize), record(i, 100 + i));
    }
}

// Lane 0 alone holds records, `n` from place `head` on.
pub fn one_lane(t: &mut [u8], head: u8, n: u8) {
    idle(t);
    put(t, LANE_0 + RING, ring(head, n));
    put(t, GROUPS, 4194304);
    list(t, 22, 0, 1, 0, 0);
}
