// Runs the setup reader on vectors and prints what it answers.
//
// Standard input has a vector to a line: bytes as upper-case hexadecimal digits, spaces between them as one likes. `@` stands where `read_plan` is
// to begin (else it begins at 0), and each `+` moves that place by one. `#` begins a comment; a line that has nothing else is a vector of no bytes.
// For each vector there is a line with what `read_setup` answers and what `read_plan` answers:
//
//     no NUMBER PLACE
//     format FORMAT, lanes COUNT to PLACE, LANE/WEIGHT/LONGEST/FRAMING ..
//
// with `/shared` at the end of a lane that trains share.
//
// vectors.py writes the vectors and the expected lines.
#![tactic(auto)]

ghost use Rattle.std.specs.Prelude.{◌<◌, ◌≤◌, length, IfSome};

use plan::Reading;
use printed_plan::{number, word};
use rules::Refusal;
use std::io::Stdout;

// Room for all vectors.
const TEXT: usize = 131072;

// Room for the bytes of a line.
const LINE: usize = 4096;

// A line as far as it is read: bytes found, a digit that waits for its second, whether a comment has begun, and where reading is to begin.
#[derive(Clone, Copy)]
struct Line {
    len: usize,
    high: Option<u8>,
    comment: bool,
    place: usize,
}

#[derive(Clone, Copy)]
struct Vector {
    len: usize,
    place: usize,
    next: usize,
}

// A hexadecimal digit's value.
fn digit(b: u8) -> Option<u8>
    ensures { IfSome result (λ d. d < 16) }
{
    match b {
        b'0'..=b'9' => Some(b - b'0'),
        b'A'..=b'F' => Some(b - b'A' + 10),
        _ => None,
    }
}

// A line with one more digit. Where there is no room for the byte that it ends, the line stays.
fn put_digit(l: Line, d: u8, bytes: &mut [u8]) -> Line
    requires { d < 16 }
{
    match l.high {
        None => Line { high: Some(d), ..l },
        Some(high) => {
            if l.len < bytes.len() {
                bytes[l.len] = high << 4 | d;
                return Line {
                    len: l.len + 1,
                    high: None,
                    ..l
                };
            }
            l
        }
    }
}

fn step(l: Line, b: u8, bytes: &mut [u8]) -> Line {
    if l.comment {
        return l;
    }
    if let Some(d) = digit(b) {
        return put_digit(l, d, bytes);
    }
    let mut place = l.place;
    if b == b'@' {
        place = l.len;
    }
    if b == b'+' {
        if place < 4096 {
            place += 1;
        }
    }
    Line {
        comment: b == b'#',
        place: place,
        ..l
    }
}

// The vector of the line that begins at `from`, and where the next line begins.
fn read_line(text: &[u8], from: usize, bytes: &mut [u8]) -> Vector
    requires { from < length text.now }
    ensures { (from < result.next) × (result.next ≤ length text.now) }
{
    let mut l = Line {
        len: 0,
        high: None,
        comment: false,
        place: 0,
    };
    for i in from..text.len() {
        let b = text[i];
        if b == b'\n' {
            return Vector {
                len: l.len,
                place: l.place,
                next: i + 1,
            };
        }
        l = step(l, b, bytes);
    }
    Vector {
        len: l.len,
        place: l.place,
        next: text.len(),
    }
}

fn print_reading(out: Stdout, read: Result<Reading, Refusal>) {
    match read {
        Ok(r) => {
            let p = r.plan;
            number(out, b"format ", p.format as u64);
            number(out, b", lanes ", p.count as u64);
            number(out, b" to ", r.next as u64);
            printed_plan::lanes(out, p)
        }
        Err(x) => printed_plan::refusal(out, x),
    }
}

// The first `n` bytes, read both ways.
fn print_both(out: Stdout, bytes: &[u8], n: usize, place: usize) {
    if n <= bytes.len() {
        let s = &bytes[..n];
        print_reading(out, plan::read_setup(s));
        word(out, b"; ");
        print_reading(out, plan::read_plan(s, place));
        word(out, b"\n");
    }
}

// One line of the text. Answers where the next line begins.
fn run_line(out: Stdout, text: &[u8], from: usize) -> usize
    requires { from < length text.now }
    ensures { (from < result) × (result ≤ length text.now) }
{
    let mut bytes = [0u8; LINE];
    let v = read_line(text, from, &mut bytes);
    print_both(out, &bytes, v.len, v.place);
    v.next
}

fn run(out: Stdout, text: &[u8]) {
    let mut at = 0;
    while at < text.len() {
        at = run_line(out, text, at);
    }
}

fn main(rt: HostRuntime) {
    let mut text = [0u8; TEXT];
    let n = streams::read_input(rt, &mut text).count;
    run(rt.stdout(), &text[..n]);
}
