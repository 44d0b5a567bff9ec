// Text sheets for the depot's tool (R13.9): a sheet read into a plan area, and a plan area written as a sheet. Answers cross as those of plans.rt do
// (specs/Plans.antt).
ghost use Rattle.std.specs.Prelude.{◌≡◌, ◌≤◌, length};
ghost use Rattle.sheet_writer.specs.Write.{unwritten_sheet_number, sheet_write_reply};
ghost use Rattle.zenfrosta.specs.Crossing.{Spoken};
ghost use Rattle.zenfrosta.specs.Plans.{write_code, write_values, CrossesSheetRead, CrossesSheetWrite};

use crate::plans::tell_got;
use crate::{one, speak};
use sheet_writer::Unwritten;

// The number of a refusal of writing.
fn unwritten_code(x: Unwritten) -> u64
    ensures { result ≡ unwritten_sheet_number x }
{
    x as u64
}

// Tells how writing went.
fn tell_written(out: &mut [u8], x: Result<usize, Unwritten>) -> u64
    requires { 32 ≤ length out.old }
    ensures { (result ≡ write_code (sheet_write_reply x)) × Spoken out.old (write_values (sheet_write_reply x)) out.new }
{
    match x {
        Ok(n) => {
            speak(out, one(n as u64));
            0
        }
        Err(f) => {
            speak(out, one(0));
            unwritten_code(f)
        }
    }
}

// Reads a text sheet into a plan area: the number of lanes, or a refusal with its place.
#[unsafe(no_mangle)]
pub extern "C" fn zf_sheet_read(sheet: &[u8], plan: &mut [u8], out: &mut [u8]) -> u64
    ensures { CrossesSheetRead sheet.now plan.old plan.new out.old result out.new }
{
    if out.len() < 32 {
        return 255;
    }
    tell_got(out, sheet_area::read_sheet(sheet, plan))
}

// Writes the plan of an area as a text sheet: its size.
#[unsafe(no_mangle)]
pub extern "C" fn zf_sheet_write(plan: &[u8], sheet: &mut [u8], out: &mut [u8]) -> u64
    ensures { CrossesSheetWrite plan.now sheet.old sheet.new out.old result out.new }
{
    if out.len() < 32 {
        return 255;
    }
    tell_written(out, sheet_area::write_sheet(plan, sheet))
}
