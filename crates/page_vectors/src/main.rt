// Runs the page reader on pages and prints what it answers.
//
// Standard input has frames, each a two-byte number, high byte first, and a page of that many bytes. For each frame there is a line
//
//     no NUMBER PLACE
//     edition EDITION, format FORMAT, lanes COUNT, LANE/WEIGHT/LONGEST/FRAMING ..
//
// with `/shared` at the end of a lane that trains share.
//
// vectors.py writes the frames and what is expected of them.
#![tactic(auto)]

ghost use Rattle.std.specs.Prelude.{◌≤◌, ◌<◌, length};

use page::Reading;
use printed_plan::{number, word};
use rules::Refusal;
use std::io::Stdout;

// The number of a page's bytes stands before it.
const FRAME: usize = 2;

// Room for all frames.
const FRAMES: usize = 65536;

fn print_reading(out: Stdout, read: Result<Reading, Refusal>) {
    match read {
        Ok(r) => {
            let p = r.plan;
            number(out, b"edition ", r.edition as u64);
            number(out, b", format ", p.format as u64);
            number(out, b", lanes ", p.count as u64);
            printed_plan::lanes(out, p)
        }
        Err(x) => printed_plan::refusal(out, x),
    }
    word(out, b"\n");
}

// The frame at a place. Answers where the next one begins.
fn run_frame(out: Stdout, frames: &[u8], at: usize) -> usize
    requires { at < length frames.now }
    ensures { (at < result) × (result ≤ length frames.now) }
{
    if frames.len() - at < FRAME {
        return frames.len();
    }
    let n = fields::u16_at(frames, at) as usize;
    let from = at + FRAME;
    if frames.len() - from < n {
        return frames.len();
    }
    let to = from + n;
    print_reading(out, page::read_page(&frames[from..to]));
    to
}

fn run(out: Stdout, frames: &[u8]) {
    let mut at = 0;
    while at < frames.len() {
        at = run_frame(out, frames, at);
    }
}

fn main(rt: HostRuntime) {
    let mut frames = [0u8; FRAMES];
    let n = streams::read_input(rt, &mut frames).count;
    run(rt.stdout(), &frames[..n]);
}
