// The run of a session, exported (R13.9): the call of crate session. Answers cross as those of lib.rt do, but for a refusal's place (specs/Crossing.antt).
ghost use Rattle.std.specs.Prelude.{◌≡◌};
ghost use Rattle.walk.specs.Follows.{why_of};
ghost use Rattle.zenfrosta.specs.Crossing.{stop_code, run_values, CrossesRun};

use crate::{Four, speak};
use walk::{RunResult, Stop};

fn stop_code(why: Stop) -> u64
    ensures { result ≡ stop_code (why_of why) }
{
    match why {
        Stop::End => 0,
        Stop::Limit => 0,
        Stop::Refused(x) => lines::number(x),
    }
}

// The words that tell how a run went.
fn run_words(x: RunResult) -> Four
    ensures { result ≡ run_values x }
{
    let why = x.why;
    match why {
        Stop::End => Four {
            a: x.answered,
            b: x.written as u64,
            c: 0,
            d: 0,
        },
        Stop::Limit => Four {
            a: x.answered,
            b: x.written as u64,
            c: 1,
            d: 0,
        },
        Stop::Refused(f) => match lines::place_of(f) {
            Some(p) => Four {
                a: x.answered,
                b: x.written as u64,
                c: 3,
                d: p as u64,
            },
            None => Four {
                a: x.answered,
                b: x.written as u64,
                c: 2,
                d: 0,
            },
        },
    }
}

// Runs a session on the lent table, and writes its lines into the answer area.
#[unsafe(no_mangle)]
pub extern "C" fn zf_run(
    session: &[u8],
    limit: u64,
    table: &mut [u8],
    answers: &mut [u8],
    out: &mut [u8],
) -> u64
    ensures { CrossesRun session.now limit table.old table.new answers.old answers.new out.old result out.new }
{
    if out.len() < 32 {
        return 255;
    }
    let result = session::run(session, limit, table, answers);
    let w = run_words(result);
    speak(out, w);
    let why = result.why;
    stop_code(why)
}
