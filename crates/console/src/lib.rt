// The unit's program (docs/RULES.md, R10.15). It reads standard input, runs it as a session with a limit of 1,000, and writes the lines.
//
// `answered` is the work, on slices, with its promise (specs/Prints.antt); `serve` adds standard input and output, of which no contract can speak.
#![tactic(auto)]

ghost use Rattle.std.specs.Prelude.{◌*◌, ◌≤◌, length};
ghost use Rattle.table.specs.Layout.{table_size};
ghost use Rattle.console.specs.Prints.{Prints};

use rules::Refusal;

// The most bytes of input; 18 is for more.
pub const MOST_INPUT: usize = 32768;

// One byte more than the most, to see an input that is too long.
pub const INPUT: usize = 32769;

// 64 x (1,000 + 2): the answer area for the most requests.
pub const AREA: usize = 64128;

// The text of an input, in the answer area; how many bytes it has.
pub fn answered(input: &[u8], table: &mut [u8], area: &mut [u8]) -> usize
    requires { (table_size ≤ length table.old) × (64 * 1002 ≤ length area.old) }
    ensures { Prints input.now area.old area.new result }
{
    if input.len() > MOST_INPUT {
        return lines::put_no(area, 0, Refusal::InputLong);
    }
    let result = session::run(input, session::MOST_REQUESTS, table, area);
    result.written
}

// Answers standard input's text on standard output, if no read of it failed; crate streams tells what fails on standard error.
pub fn serve(rt: HostRuntime) {
    if !streams::alone(
        rt,
        b"unit: no arguments are taken: a session's bytes on standard input, its answer lines on standard output\n",
    ) {
        return;
    }
    let mut input = [0u8; INPUT];
    let came = streams::read_input(rt, &mut input);
    if !came.whole {
        return;
    }
    let n = came.count;
    let mut table = [0u8; table::TABLE_SIZE];
    let mut area = [0u8; AREA];
    let m = answered(&input[..n], &mut table, &mut area);
    streams::write_output(rt, &area[..m]);
}
