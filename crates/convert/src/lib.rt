// The converter: a table made while a lane had room for 16 records is taken over into other lent bytes, with room for 64 (docs/RULES.md, R7).
//
// The old table is tested whole, as every public call tests its table, and is never written. Nothing is written to the new bytes before the last test.
// What it promises is `Converts` (specs/Converts.antt), whole; specs/Takes.antt says that takes answer from both tables alike.
//
// The bytes that both layouts have in the same places go over as they are: single words, rows and slot lists. Then the depth number is written, and of
// each lane in the setup the ring word anew, with the records from place 0 on, lengths and marks apart. A table of that time has taken no settings page: its
// last edition is 0, and none waits.
#![tactic(auto)]

ghost use Rattle.std.specs.Prelude.{◌≡◌, true, ◌≤◌, ◌<◌, length, drop};
ghost use Rattle.rules.specs.Older.{old_depth};
ghost use Rattle.rounds.specs.Good.{Lengths};
ghost use Rattle.table.specs.Layout.{SIZE, Room, Behind, Now, cells, put_row};
ghost use Rattle.table.specs.Means.{present_at};
ghost use Rattle.old_table.specs.Old.{old_size, old_ring, OldTable};
ghost use Rattle.convert.specs.Over.{Copied, Carried, Filled, LaneMoved, Over, unrolled};
ghost use Rattle.convert.specs.Converts.{Converts};

use editions::set_taken;
use old_table::{record_at, row};
use rules::Refusal;
use table::{
    DEPTH, DEPTH_NUMBER, LaneRow, PRESENT, cell, clear_lengths, set_cell, set_record, set_row,
};
use units::Clock;
use words::SetBits;

// The fixed sizes of a table then and now, in bytes.
pub const OLD_SIZE: usize = old_table::SIZE;

pub const NEW_SIZE: usize = table::TABLE_SIZE;

// Copies the old table's bytes. What they mean is made anew where the layouts differ. Not inlined: there the compiler sees that the two do not overlap, and calls
// memcpy; of the loop inlined, as of `copy_from_slice`, it makes a call of memmove, and the library is to need memcpy and memset alone.
#[inline(never)]
fn copy(old: &[u8], new: &mut [u8])
    requires { (old_size ≤ length old.now) × Room new.old }
    ensures { Copied old.now new.old new.new old_size }
{
    for i in 0..OLD_SIZE {
        new[i] = old[i];
    }
}

// Writes the records of lane `k`, which has the old row `l` and holds records, from place 0 of its new ring on.
fn records_over(old: &[u8], new: &mut [u8], k: usize, l: LaneRow)
    requires { (old_size ≤ length old.now) × Room new.old × (k < 64) × (l.head < old_depth) × (l.count ≤ old_depth) × (0 < l.longest.0) × (l.longest.0 ≤ 1500) × Lengths l.longest.0 (old_ring (cells old.now) k l.head l.count) }
    ensures { Filled old.now new.old new.new k l l.count }
{
    // Every place of a holding lane is within the lane's numbers, a record there or not.
    clear_lengths(new, k);
    for i in 0..l.count {
        let e = record_at(old, k, l.head + i);
        set_record(new, k, i, e);
    }
}

// Writes lane `k`'s clock word and its ring word, for as many records as the old row `l` has, from place 0 on.
fn row_over(new: &mut [u8], k: usize, l: LaneRow, time: Clock)
    requires { Room new.old × (k < 64) × (l.count ≤ old_depth) }
    ensures { Now new.old new.new (put_row (cells new.old) k (unrolled l time.0)) }
{
    let mut next = l;
    next.time = time;
    next.head = 0;
    set_row(new, k, next);
}

// Takes over lane `k`, which is in the setup.
fn lane_over(old: &[u8], new: &mut [u8], k: usize)
    requires { OldTable old.now × Room new.old × (k < 64) × (present_at (cells old.now) k ≡ true) × Carried old.now new.old }
    ensures { LaneMoved old.now new.old new.new k }
{
    let l = row(old, k);
    if l.count == 0 {
        let finish = l.time;
        row_over(new, k, l, finish);
        return;
    }
    let start = l.time;
    records_over(old, new, k, l);
    row_over(new, k, l, start);
}

// Takes over the lanes of the setup.
fn lanes_over(old: &[u8], new: &mut [u8])
    requires { OldTable old.now × Room new.old × Carried old.now new.old }
    ensures { Over old.now new.new 64 × Behind new.old new.new }
{
    for k in SetBits(cell(old, PRESENT)) {
        lane_over(old, new, k as usize);
    }
}

// Writes the table, the old one being good.
fn write(old: &[u8], new: &mut [u8])
    requires { OldTable old.now × Room new.old }
    ensures { Over old.now new.new 64 × (drop SIZE new.new ≡ drop SIZE new.old) }
{
    copy(old, new);
    set_cell(new, DEPTH_NUMBER, DEPTH);
    lanes_over(old, new);
}

// Takes over the table `old`, of 16 places in a lane, into the bytes `new`, whatever they held: they are then a table with the old one's queues, clock, lanes and
// tie order.
pub fn convert(old: &[u8], new: &mut [u8]) -> Result<(), Refusal>
    ensures { Converts old.now new.old result new.new }
{
    if new.len() < NEW_SIZE {
        return Err(Refusal::TableShort);
    }
    if !old_table::good(old) {
        return Err(Refusal::NotGood);
    }
    write(old, new);
    set_taken(&mut new[table::SIZE..], 0);
    Ok(())
}
