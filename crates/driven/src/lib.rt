// The calls that the programs `drive` and `drive_edges` make, each with its answer printed, and the tables that both begin with. What they are to print is
// worked out by expected.py.
//
// Each scene begins with a table of bytes 165, some of them past the fixed size, so that making has something to write over and something to leave.
#![tactic(auto)]

pub mod bytes;
pub mod calls;
pub mod tables;
