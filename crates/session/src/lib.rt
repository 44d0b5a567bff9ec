// The session run, which asks nothing of its caller: docs/RULES.md, R10.
//
// `run` takes any bytes, any limit, any table and any answer area. What it answers and leaves is `run_of` of `walk/specs/Script.antt`, by the promise `Ran`
// of specs/Ran.antt. specs/Requests.antt says that a run's requests are a list of the rules' calls from the fresh table of its setup; specs/One.antt that
// nothing of a run's result is left open.
#![tactic(auto)]

ghost use Rattle.std.specs.Prelude.{◌≡◌};
ghost use Rattle.session.specs.Ran.{Ran};

use rules::Refusal;
use table::TABLE_SIZE;
use walk::{RunResult, Stop, begun};

// R10.4: the greatest limit.
pub const MOST_REQUESTS: u64 = 1000;

// No line is longer: the lines of a run are `lanes N`, one for each request, and `end N`; a refusal's line stands in the place of a request.
pub const LINE: usize = 64;

fn nothing(x: Refusal) -> RunResult
    ensures { result ≡ record { answered = 0; written = 0; why = Stop.Refused x } }
{
    RunResult {
        answered: 0,
        written: 0,
        why: Stop::Refused(x),
    }
}

// Runs a session on a lent table, and writes its lines into a lent answer area. 17 goes before 7, and both before the setup (R10.4).
pub fn run(session: &[u8], limit: u64, table: &mut [u8], answers: &mut [u8]) -> RunResult
    ensures { Ran session.now limit table.old table.new answers.old answers.new result }
{
    if limit > MOST_REQUESTS {
        return nothing(Refusal::RunBounds);
    }
    if answers.len() < LINE * (limit as usize + 2) {
        return nothing(Refusal::RunBounds);
    }
    if table.len() < TABLE_SIZE {
        return nothing(Refusal::TableShort);
    }
    begun(session, limit, table, answers)
}
