// Text sheets for a host that edits a plan: a sheet read into a plan area, and the plan of an area written as a sheet.
//
//   read_sheet    a sheet read into an area
//   write_sheet   the plan of an area written as a sheet
//
// Both take any bytes and areas of any length. What they answer and leave is `SheetReadStep` and `SheetWriteStep` of specs/Step.antt; what an area is, word by
// word, is crate `plan_area`.
#![tactic(auto)]

ghost use Rattle.sheet_area.specs.Step.{SheetReadStep, SheetWriteStep};

use plan_area::SIZE;
use rules::Refusal;
use sheet_writer::Unwritten;

// Reads a sheet into an area: how many lanes it has, or a refusal with its place.
pub fn read_sheet(s: &[u8], area: &mut [u8]) -> Result<usize, Refusal>
    ensures { SheetReadStep s.now area.old result area.new }
{
    if area.len() < SIZE {
        return Err(Refusal::TableShort);
    }
    let r = sheet::read_sheet(s)?;
    plan_area::store(area, r.plan);
    Ok(r.plan.count)
}

// Writes the plan of an area, of either format, as a sheet. Bytes that are no area are outside the numbers.
pub fn write_sheet(area: &[u8], buf: &mut [u8]) -> Result<usize, Unwritten>
    ensures { SheetWriteStep area.now buf.old result buf.new }
{
    if area.len() < SIZE {
        return Err(Unwritten::Outside);
    }
    sheet_writer::write_sheet(plan_area::plan_in(area), buf)
}
