// Standard input, output and error of the programs (docs/RULES.md, R10.15): what comes in is read to its end, what goes out is written whole, and what fails
// is told on standard error. No contract can speak of what is read or written; a program's work is a function on slices, in the crate above.
//
// The exit status of a program is 0 whatever happened.
#![tactic(auto)]

ghost use Rattle.std.specs.Prelude.{◌≡◌, ◌<◌, ◌≤◌, length, take};

use std::env::{Env, FillError};
use std::io::Read;

// What came in: how many bytes, and whether these are all, with no read that failed.
#[derive(Clone, Copy)]
pub struct Came {
    pub count: usize,
    pub whole: bool,
}

// Whether an argument stands behind the program's name; one that is longer than the buffer does too.
fn has_argument(rt: HostRuntime) -> bool {
    let mut buffer = [0u8; 1];
    !matches!(rt.arg(1, &mut buffer), Err(FillError::NotPresent))
}

// Whether the program was started without arguments, as it must be; else it says so, with a line of help.
pub fn alone(rt: HostRuntime, help: &[u8]) -> bool {
    if has_argument(rt) {
        let _ = rt.stderr().write_all(help);
        return false;
    }
    true
}

// Reads standard input until it ends or the buffer is full, which must have room for a byte more than the most: else a longer input would be cut and read.
pub fn read_input(rt: HostRuntime, buffer: &mut [u8]) -> Came
    requires { 32768 < length buffer.old }
    ensures within { result.count ≤ length buffer.new }
    ensures prefix { result.count ≡ length (take result.count buffer.new) }
{
    let mut input = rt.stdin();
    let mut done = 0;
    while done < buffer.len() {
        match input.read(&mut buffer[done..]) {
            Ok(n) => {
                if n == 0 {
                    return Came {
                        count: done,
                        whole: true,
                    };
                }
                done += n;
            }
            Err(e) => {
                let _ = eprintln!(rt; "standard input: {e}");
                return Came {
                    count: done,
                    whole: false,
                };
            }
        }
    }
    Came {
        count: done,
        whole: true,
    }
}

// Writes a text to standard output. Short writes are gone on with.
pub fn write_output(rt: HostRuntime, text: &[u8]) {
    if let Err(e) = rt.stdout().write_all(text) {
        let _ = eprintln!(rt; "standard output: {e}");
    }
}
