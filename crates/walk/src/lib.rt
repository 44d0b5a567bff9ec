// A session on a table and an answer area that are long enough (docs/RULES.md, R10). Bytes in, answer lines out.
//
// `begun` reads the setup, makes the table, and walks over the requests. What it answers and leaves is `script` of specs/Script.antt, by the promise
// `Follows` of specs/Follows.antt. After its own making of the table it rests on the inner calls, with no test for each request. The run itself, which tests
// its limit and what it was lent, is `session`.
//
// Units: places and lengths are numbers of bytes; places are counted from the first byte of the session.
#![tactic(auto)]

ghost use Rattle.std.specs.Prelude.{◌≡◌, [], ◌+◌, ◌*◌, ◌≤◌, ◌<◌, length};
ghost use Rattle.table.specs.Layout.{table_size};
ghost use Rattle.table.specs.Means.{meant};
ghost use Rattle.answers.specs.Answers.{Made};
ghost use Rattle.walk.specs.Script.{session_closed, session_walk, finished, script};
ghost use Rattle.walk.specs.Follows.{why_of, Follows, FollowsCore};
ghost use Rattle.walk.specs.Walks.{line_count, Walks, Closes};

use answers::Tally;
use editions::set_taken;
use requests::{END, Request};
use rules::Refusal;
use table::SIZE;

// Why a run stopped.
#[derive(Clone, Copy)]
pub enum Stop {
    End,
    Limit,
    Refused(Refusal),
}

#[derive(Clone, Copy)]
pub struct RunResult {
    // Requests answered.
    pub answered: u64,
    // Answer bytes written.
    pub written: usize,
    pub why: Stop,
}

// The requests walked: how many were answered, the place behind their lines, and why the walk stopped.
#[derive(Clone, Copy)]
pub struct Walked {
    pub answered: u64,
    pub next: usize,
    pub why: Stop,
}

// At the end field: a byte after it is out of order.
fn closed(s: &[u8], at: usize) -> Stop
    ensures { why_of result ≡ session_closed s.now at }
{
    if at < s.len() {
        return Stop::Refused(Refusal::OutOfOrder(at));
    }
    Stop::End
}

// Walks the requests from a place on, for each its call and its line, up to the end field, a refused field or the limit (R10.7 to R10.9). Most requests are
// read at once; any other field is judged and then decoded byte by byte, and where it is refused the walk is left from there.
fn walk(s: &[u8], from: usize, limit: u64, t: &mut [u8], a: &mut [u8], start: usize) -> Walked
    requires { Made t.old × (limit ≤ 1000) × (start ≤ 64) × (64 * (limit + 2) ≤ length a.old) }
    ensures { Walks limit t.old t.new a.old a.new start result (session_walk limit s.now from 0 [] (meant t.old)) }
{
    let mut at = from;
    let mut done = Tally {
        answered: 0,
        next: start,
    };
    let mut why = Stop::Limit;
    'fields: while done.answered < limit {
        let mut q = Request::Take;
        let mut next = at;
        match requests::quick_at(s, at) {
            Some((whole, behind)) => {
                q = whole;
                next = behind;
            }
            None => match requests::head_at(s, at) {
                Err(x) => {
                    why = Stop::Refused(x);
                    break 'fields;
                }
                Ok((tag, size)) => {
                    let mut value = 0;
                    for i in 0..size {
                        let p = at + 3 + i;
                        if p >= s.len() {
                            why = Stop::Refused(Refusal::Cut(at));
                            break 'fields;
                        }
                        value = value * 256 + s[p] as u64;
                    }
                    next = at + 3 + size;
                    if tag == END {
                        why = closed(s, next);
                        break 'fields;
                    }
                    q = requests::request_of(tag, value);
                }
            },
        }
        at = next;
        done = answers::answer(t, a, done, q);
    }
    Walked {
        answered: done.answered,
        next: done.next,
        why: why,
    }
}

// The last lines: `no R PLACE` of a refusal, then `end N`.
fn put_closing(a: &mut [u8], at: usize, why: Stop, n: u64) -> usize
    requires { at + 64 * line_count why ≤ length a.old }
    ensures { Closes a.old a.new at why n result }
{
    match why {
        Stop::Refused(x) => {
            let p = lines::put_no(a, at, x);
            lines::put_end(a, p, n)
        }
        Stop::End => lines::put_end(a, at, n),
        Stop::Limit => lines::put_end(a, at, n),
    }
}

// The requests on a fresh table, from a place on: `lanes N`, their lines, and the last lines.
fn requested(s: &[u8], at: usize, limit: u64, t: &mut [u8], a: &mut [u8], lanes: u64) -> RunResult
    requires { Made t.old × (limit ≤ 1000) × (64 * (limit + 2) ≤ length a.old) }
    ensures { FollowsCore t.old t.new a.old a.new result (finished lanes (session_walk limit s.now at 0 [] (meant t.old))) }
{
    let start = lines::put_lanes(a, 0, lanes);
    let w = walk(s, at, limit, t, a, start);
    let why = w.why;
    let written = put_closing(a, w.next, why, w.answered);
    RunResult {
        answered: w.answered,
        written: written,
        why: why,
    }
}

// A run whose limit, answer area and table are right: the setup, then the requests. Nothing is written to the table before the whole setup is read.
pub fn begun(s: &[u8], limit: u64, t: &mut [u8], a: &mut [u8]) -> RunResult
    requires { (table_size ≤ length t.old) × (limit ≤ 1000) × (64 * (limit + 2) ≤ length a.old) }
    ensures { Follows t.old t.new a.old a.new result (script s.now limit) }
{
    match plan::read_plan(s, 0) {
        Err(x) => {
            let written = lines::put_no(a, 0, x);
            RunResult {
                answered: 0,
                written: written,
                why: Stop::Refused(x),
            }
        }
        Ok(reading) => {
            let plan = reading.plan;
            // A run's table has taken no settings page.
            set_taken(&mut t[SIZE..], 0);
            fresh::write(t, plan.lanes);
            requested(s, reading.next, limit, t, a, plan.count as u64)
        }
    }
}
