// The depot's two programs: a text sheet into the bytes of a setup, and a setup into a sheet. Each reads standard input and writes standard output; what is
// refused is told by one line, `no R PLACE`, or `no R` where there is no place.
//
// `print` is the work, on slices, with its promise (specs/Prints.antt); `serve_setup` and `serve_sheet` add standard input and output, of which no contract
// can speak.
#![tactic(auto)]

ghost use Rattle.std.specs.Prelude.{◌≤◌, ◌≡◌, length};
ghost use Rattle.plan.specs.Read.{setup_reply};
ghost use Rattle.plan_writer.specs.Write.{Within};
ghost use Rattle.depot.specs.Prints.{as_planned, read_other, plan_text, depot_text, PrintsText};

use plan::{Plan, Reading};
use rules::Refusal;

// The most bytes of input: those of the unit's program.
pub const MOST_INPUT: usize = 32768;

// One byte more than the most, to see an input that is too long.
pub const INPUT: usize = 32769;

// Room for the longest setup, the longest sheet, and any line.
pub const ROOM: usize = 1024;

// What a program writes; it reads the other.
#[derive(Clone, Copy)]
pub enum Form {
    Setup,
    Sheet,
}

fn read_other(input: &[u8], form: Form) -> Result<Reading, Refusal>
    ensures { setup_reply result ≡ read_other form input.now }
{
    match form {
        Form::Setup => sheet::read_sheet(input),
        Form::Sheet => plan::read_setup(input),
    }
}

// Writes a plan that was read; how many bytes.
fn write_plan(plan: Plan, out: &mut [u8], form: Form) -> usize
    requires { Within (as_planned plan) × (1024 ≤ length out.old) }
    ensures { PrintsText (plan_text form (as_planned plan)) out.old out.new result }
{
    match form {
        // The plan is within the numbers, and there is room.
        Form::Setup => plan_writer::write_setup(plan, out).unwrap(),
        Form::Sheet => match sheet_writer::write_sheet(plan, out) {
            Ok(n) => n,
            // Within the numbers, and with room: what is left is a plan with framing bytes or a shared lane.
            Err(_) => lines::put_no(out, 0, Refusal::NoSheet),
        },
    }
}

// Writes the plan that an input has, or the line of its refusal; how many bytes.
pub fn print(input: &[u8], out: &mut [u8], form: Form) -> usize
    requires { 1024 ≤ length out.old }
    ensures { PrintsText (depot_text form input.now) out.old out.new result }
{
    if input.len() > MOST_INPUT {
        return lines::put_no(out, 0, Refusal::InputLong);
    }
    match read_other(input, form) {
        Ok(r) => write_plan(r.plan, out, form),
        Err(x) => lines::put_no(out, 0, x),
    }
}

// A program: standard input printed on standard output, unless there are arguments.
fn serve(rt: HostRuntime, help: &[u8], form: Form) {
    if !streams::alone(rt, help) {
        return;
    }
    let mut input = [0u8; INPUT];
    let came = streams::read_input(rt, &mut input);
    if !came.whole {
        return;
    }
    let n = came.count;
    let mut out = [0u8; ROOM];
    let m = print(&input[..n], &mut out, form);
    streams::write_output(rt, &out[..m]);
}

// A sheet on standard input, its setup on standard output.
pub fn serve_setup(rt: HostRuntime) {
    serve(
        rt,
        b"sheet_setup: no arguments are taken: a text sheet on standard input, its setup's bytes on standard output\n",
        Form::Setup,
    );
}

// A setup on standard input, its sheet on standard output.
pub fn serve_sheet(rt: HostRuntime) {
    serve(
        rt,
        b"setup_sheet: no arguments are taken: a setup's bytes on standard input, its text sheet on standard output\n",
        Form::Sheet,
    );
}
