// Where the parts of a table begin (docs/TABLE.md), once for every crate that reads or writes one: specs/Parts.antt. There is no code here but numbers.

#![tactic(auto)]

// Lanes are numbered 0 to 63.
pub const LANES: usize = 64;

// Each lane holds at most 64 records.
pub const DEPTH: u64 = 64;

// A shared lane has 8 trains.
pub const TRAINS: usize = 8;

// Places of a lane.
pub const PLACES: usize = DEPTH as usize;

// The first words of the lanes' rows, of the records' lengths, four in a word, and of the slot lists.
pub const ROWS: usize = 80;

pub const LENGTHS: usize = ROWS + 4 * LANES;

pub const LISTS: usize = LENGTHS + LANES * PLACES / 4;

// The first byte of the slot lists' rings.
pub const RINGS: usize = 8 * (LISTS + 48);
