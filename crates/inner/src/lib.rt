// The inner calls by themselves: any list of puts and takes, on a table that is tested once. A library of its own, for the benchmark alone
// (`compare/measure`): the unit has no such call, and no rule names one.
//
// Three bytes make a call: a lane, and a number, high byte first, of which the lowest 12 bits are a length and the highest 4 a train. A lane below 64 gets a
// record of that train and length; from 64 on a record is taken.
//
// Like a session it rests on a table that its own calls led to from a fresh one (`answers/specs/Answers.antt`), here the restarted table.
#![tactic(auto)]

ghost use Rattle.std.specs.Prelude.{◌+◌, ◌≤◌, length};
ghost use Rattle.table.specs.Means.{meant};
ghost use Rattle.choice.specs.Known.{Known};
ghost use Rattle.engine.specs.Does.{Does};
ghost use Rattle.answers.specs.Answers.{Made};
ghost use Rattle.inner.specs.Works.{CALL, call_at, calls_in, worked, LeadsTable, Works};

use fields::u16_at;
use good::good;
use rules::{Answer, Refusal};
use units::Bytes;

// The bytes of a call.
const CALL: usize = 3;

// Where the train begins in a call's number, after the length.
const TRAIN_UNIT: u16 = 4096;

// The call of the bytes from `at` on.
fn call(t: &mut [u8], calls: &[u8], at: usize) -> Result<Answer, Refusal>
    requires { Known t.old × (at + CALL ≤ length calls.now) }
    ensures { Does (call_at calls.now at) t.old result t.new }
{
    let lane = calls[at];
    if lane < 64 {
        let n = u16_at(calls, at + 1);
        engine::put(
            t,
            lane,
            (n / TRAIN_UNIT) as u8,
            7,
            Bytes((n % TRAIN_UNIT) as u64),
        )
    } else {
        engine::take(t)
    }
}

// The calls of the bytes, one after another.
fn work(t: &mut [u8], calls: &[u8])
    requires { Made t.old }
    ensures { LeadsTable t.old t.new (worked calls.now (meant t.old) (calls_in calls.now)) }
{
    for i in 0..calls.len() / CALL {
        let _ = call(t, calls, i * CALL);
    }
}

// Restarts a good table that holds no record, and makes the calls of the bytes on it: 0. Else 10 or 15, as restart, and nothing is done.
#[unsafe(no_mangle)]
pub extern "C" fn zf_inner_calls(table: &mut [u8], calls: &[u8]) -> u64
    ensures { Works calls.now table.old result table.new }
{
    if !good(table) {
        return 10;
    }
    match engine::restart(table) {
        Ok(_) => {
            work(table, calls);
            0
        }
        Err(_) => 15,
    }
}
