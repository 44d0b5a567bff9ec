// Runs sessions and prints what each run answers and writes.
//
// Standard input has frames, each of four numbers, high byte first, and a session: the limit, how many bytes of table and of answer area are lent, how
// many bytes the session has, and these. Each number has two bytes, that of the table four. All runs are on one table and one answer area, which keep
// what the runs before left in them. For each frame there is a line
//
//     = ANSWERED WRITTEN end|limit|no NUMBER [PLACE]
//
// and then the text that was written. vectors.py writes the frames and what is expected of them.
#![tactic(auto)]

ghost use Rattle.std.specs.Prelude.{◌+◌, ◌≤◌, ◌<◌, length};

use std::io::Stdout;
use walk::Stop;

// Bytes of a frame before its session.
const FRAME: usize = 10;

// Room for all frames.
const FRAMES: usize = 65536;

// The most bytes of table, a few past the fixed size, and of answer area.
const TABLE: usize = table::TABLE_SIZE + 20;

const AREA: usize = 65000;

fn print_place(out: Stdout, p: Option<usize>) {
    if let Some(n) = p {
        let _ = out.write_all(b" ");
        let _ = out.print(n as u64);
    }
}

fn print_stop(out: Stdout, why: Stop) {
    match why {
        Stop::End => {
            let _ = out.write_all(b" end\n");
        }
        Stop::Limit => {
            let _ = out.write_all(b" limit\n");
        }
        Stop::Refused(x) => {
            let _ = out.write_all(b" no ");
            let _ = out.print(lines::number(x));
            print_place(out, lines::place_of(x));
            let _ = out.write_all(b"\n");
        }
    }
}

fn run_one(out: Stdout, bytes: &[u8], limit: u64, table: &mut [u8], area: &mut [u8]) {
    let r = session::run(bytes, limit, table, area);
    let n = r.written;
    let why = r.why;
    let _ = out.write_all(b"= ");
    let _ = out.print(r.answered);
    let _ = out.write_all(b" ");
    let _ = out.print(n as u64);
    print_stop(out, why);
    if n <= area.len() {
        let _ = out.write_all(&area[..n]);
    }
}

// Lends a table and an answer area of these lengths, where there are as many bytes.
fn run_lent(
    out: Stdout,
    bytes: &[u8],
    limit: u64,
    table: &mut [u8],
    tables: usize,
    area: &mut [u8],
    areas: usize,
) {
    if tables <= table.len() {
        if areas <= area.len() {
            run_one(out, bytes, limit, &mut table[..tables], &mut area[..areas]);
        }
    }
}

// The frame at a place. Answers where the next one begins.
fn run_frame(out: Stdout, frames: &[u8], at: usize, table: &mut [u8], area: &mut [u8]) -> usize
    requires { at < length frames.now }
    ensures { (at < result) × (result ≤ length frames.now) }
{
    if frames.len() - at < FRAME {
        return frames.len();
    }
    let limit = fields::u16_at(frames, at) as u64;
    let high = fields::u16_at(frames, at + 2) as usize;
    let low = fields::u16_at(frames, at + 4) as usize;
    let tables = high * 65536 + low;
    let areas = fields::u16_at(frames, at + 6) as usize;
    let n = fields::u16_at(frames, at + 8) as usize;
    let from = at + FRAME;
    if frames.len() - from < n {
        return frames.len();
    }
    let to = from + n;
    run_lent(out, &frames[from..to], limit, table, tables, area, areas);
    to
}

fn run(out: Stdout, frames: &[u8], table: &mut [u8], area: &mut [u8]) {
    let mut at = 0;
    while at < frames.len() {
        at = run_frame(out, frames, at, table, area);
    }
}

fn main(rt: HostRuntime) {
    let mut frames = [0u8; FRAMES];
    let n = streams::read_input(rt, &mut frames).count;
    let mut table = [7u8; TABLE];
    let mut area = [7u8; AREA];
    run(rt.stdout(), &frames[..n], &mut table, &mut area);
}
