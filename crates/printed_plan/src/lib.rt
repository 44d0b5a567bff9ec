// Writes what the readers of setups and pages answer, in words: for the programs that run them on vectors.
//
//     no NUMBER PLACE
//     .., LANE/WEIGHT/LONGEST/FRAMING ..
//
// with `/shared` at the end of a lane that trains share. A lane that is not in the plan is left out.
#![tactic(auto)]

use plan::{Lane, Plan};
use rules::Refusal;
use std::io::Stdout;

pub fn word(out: Stdout, w: &[u8]) {
    let _ = out.write_all(w);
}

pub fn number(out: Stdout, before: &[u8], n: u64) {
    word(out, before);
    let _ = out.print(n);
}

fn place(out: Stdout, p: Option<usize>) {
    if let Some(at) = p {
        number(out, b" ", at as u64);
    }
}

// A refusal, with its place where it has one.
pub fn refusal(out: Stdout, x: Refusal) {
    number(out, b"no ", lines::number(x));
    place(out, lines::place_of(x));
}

fn lane(out: Stdout, k: usize, l: Lane) {
    if l.weight != 0 {
        let _ = print!(out; " {k}/{}/{}/{}", l.weight, l.longest, l.framing);
        if l.shared {
            word(out, b"/shared");
        }
    }
}

pub fn lanes(out: Stdout, p: Plan) {
    word(out, b",");
    for (k, l) in p.lanes.iter().enumerate() {
        lane(out, k, *l);
    }
}
