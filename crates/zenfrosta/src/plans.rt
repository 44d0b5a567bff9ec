// Plans for the depot's tool (R13.7, R13.9): a setup read into a plan area, and a plan area written as a setup. Answers cross as those of lib.rt do
// (specs/Plans.antt).
ghost use Rattle.std.specs.Prelude.{◌≡◌, ◌≤◌, length};
ghost use Rattle.plan_writer.specs.Write.{unwritten_number, write_reply};
ghost use Rattle.plan_area.specs.Area.{area_size};
ghost use Rattle.plan_area.specs.Step.{area_reply};
ghost use Rattle.zenfrosta.specs.Crossing.{Spoken};
ghost use Rattle.zenfrosta.specs.Plans.{read_code, read_values, write_code, write_values, CrossesSetupRead, CrossesSetupWrite};

use crate::{one, refuse, speak};
use plan_writer::Unwritten;
use rules::Refusal;

// Tells how reading went.
pub(crate) fn tell_got(out: &mut [u8], x: Result<usize, Refusal>) -> u64
    requires { 32 ≤ length out.old }
    ensures { (result ≡ read_code (area_reply x)) × Spoken out.old (read_values (area_reply x)) out.new }
{
    match x {
        Ok(n) => {
            speak(out, one(n as u64));
            0
        }
        Err(f) => refuse(out, f),
    }
}

// The number of a refusal of writing.
fn unwritten_code(x: Unwritten) -> u64
    ensures { result ≡ unwritten_number x }
{
    x as u64
}

// Tells how writing went.
fn tell_written(out: &mut [u8], x: Result<usize, Unwritten>) -> u64
    requires { 32 ≤ length out.old }
    ensures { (result ≡ write_code (write_reply x)) × Spoken out.old (write_values (write_reply x)) out.new }
{
    match x {
        Ok(n) => {
            speak(out, one(n as u64));
            0
        }
        Err(f) => {
            speak(out, one(0));
            unwritten_code(f)
        }
    }
}

// The fixed size of a plan area, in bytes.
#[unsafe(no_mangle)]
pub extern "C" fn zf_plan_size() -> u64
    ensures { result ≡ area_size }
{
    plan_area::SIZE as u64
}

// Reads a setup into a plan area: the number of lanes, or a refusal with its place.
#[unsafe(no_mangle)]
pub extern "C" fn zf_setup_read(setup: &[u8], plan: &mut [u8], out: &mut [u8]) -> u64
    ensures { CrossesSetupRead setup.now plan.old plan.new out.old result out.new }
{
    if out.len() < 32 {
        return 255;
    }
    tell_got(out, plan_area::read_setup(setup, plan))
}

// Writes the plan of an area as a setup: its size.
#[unsafe(no_mangle)]
pub extern "C" fn zf_setup_write(plan: &[u8], setup: &mut [u8], out: &mut [u8]) -> u64
    ensures { CrossesSetupWrite plan.now setup.old setup.new out.old result out.new }
{
    if out.len() < 32 {
        return 255;
    }
    tell_written(out, plan_area::write_setup(plan, setup))
}
