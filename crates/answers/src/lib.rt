// A request of a session answered (docs/RULES.md, R10): the call on the run's table, and its line in the answer area.
//
// The calls are `engine`'s. They rest on a table known to be good, and no test is made for each request: the run began with a fresh table, and its requests
// keep it good (R6.14; proofs/Made.antt).
#![tactic(auto)]

ghost use Rattle.std.specs.Prelude.{◌≡◌, ◌+◌, ◌≤◌, ◌<◌, length};
ghost use Rattle.rules.specs.State.{setting_at, setup_of};
ghost use Rattle.rules.specs.Reads.{answer, reads};
ghost use Rattle.table.specs.Layout.{Room};
ghost use Rattle.table.specs.Means.{meant};
ghost use Rattle.choice.specs.Known.{Known};
ghost use Rattle.engine.specs.Does.{Does};
ghost use Rattle.requests.specs.Request.{call_is};
ghost use Rattle.lines.specs.Line.{Words32, Line};
ghost use Rattle.answers.specs.Lines.{InSetup, line_by};
ghost use Rattle.answers.specs.Answers.{Made, Answers};

use lines::{put_accepted, put_lag, put_no, put_record, put_restarted, put_sets};
use requests::Request;
use rules::{Answer, Refusal};
use table::row;
use text::put_word;

// How far the answers have come: the requests answered, and the place behind their lines.
#[derive(Clone, Copy)]
pub struct Tally {
    pub answered: u64,
    pub next: usize,
}

// The call of a request.
fn call(t: &mut [u8], q: Request) -> Result<Answer, Refusal>
    requires { Known t.old }
    ensures { Does (call_is q) t.old result t.new }
{
    match q {
        Request::Put {
            lane,
            train,
            mark,
            length,
        } => engine::put(t, lane, train, mark, length),
        Request::Take => engine::take(t),
        Request::Look => engine::look(t),
        Request::Sets => engine::sets(t),
        Request::Lag(lane) => engine::lag(t, lane),
        Request::Restart => engine::restart(t),
    }
}

// Whether trains share a lane of the setup.
fn shared_lane(t: &[u8], lane: u8) -> bool
    requires { Room t.now × (0 < (setting_at (setup_of (meant t.now)) lane).weight) }
    ensures { result ≡ (setting_at (setup_of (meant t.now)) lane).shared }
{
    let l = row(t, lane as usize);
    l.shared
}

// Writes the line of an answer that is no refusal: that of a record of a shared lane ends with the train.
fn tell_done(t: &[u8], a: &mut [u8], at: usize, x: Answer) -> usize
    requires { Room t.now × Words32 (answer x) × InSetup (setup_of (meant t.now)) (answer x) × (at + 64 ≤ length a.old) }
    ensures { Line a.old a.new at (line_by (setup_of (meant t.now)) (answer x)) result }
{
    match x {
        Answer::Accepted(n) => put_accepted(a, at, n),
        Answer::Taken(r) => {
            let p = put_word(a, at, b"take");
            put_record(a, p, r, shared_lane(t, r.lane))
        }
        Answer::Seen(r) => {
            let p = put_word(a, at, b"look");
            put_record(a, p, r, shared_lane(t, r.lane))
        }
        Answer::Sets(w) => put_sets(a, at, w),
        Answer::Lag(z) => put_lag(a, at, z),
        Answer::Restarted => put_restarted(a, at),
    }
}

// Writes the line of an answer.
fn tell(t: &[u8], a: &mut [u8], at: usize, x: Result<Answer, Refusal>) -> usize
    requires { Room t.now × Words32 (reads x) × InSetup (setup_of (meant t.now)) (reads x) × (at + 64 ≤ length a.old) }
    ensures { Line a.old a.new at (line_by (setup_of (meant t.now)) (reads x)) result }
{
    match x {
        Ok(x) => tell_done(t, a, at, x),
        Err(r) => put_no(a, at, r),
    }
}

// Answers a request: its call, its line in the answer area, and one request more that is answered, a `no` line's too.
pub fn answer(t: &mut [u8], a: &mut [u8], done: Tally, q: Request) -> Tally
    requires { Made t.old × (done.next + 64 ≤ length a.old) × (done.answered < 1000) }
    ensures { Answers (call_is q) t.old t.new a.old a.new done result }
{
    let x = call(t, q);
    let next = tell(t, a, done.next, x);
    let answered = done.answered + 1;
    Tally { answered, next }
}
