// The page's part of a table (docs/RULES.md, R19). Behind the bytes that the calls of the rules know, a table keeps the edition last taken and, while a record is
// held, a settings page that waits. This crate reads and stores these words; it knows nothing of tables.
//
// The part is 67 words of 64 bits, low byte first, 536 bytes. Word 0 is the edition last taken, 0 before any. Word 1 is the edition of the page that waits, and
// 0 where none does. The other 65 are that page's plan, in the words of a plan area (crate `plan_area`): so what a host lends as a plan, what a reader stores
// and what a table keeps are one form, with one test of the numbers (`plan_writer::within`).
//
// Inner functions: a `requires` says that the part is long enough. What their words mean is in specs/Part.antt.
#![tactic(auto)]

ghost use Rattle.std.specs.Prelude.{◌≡◌, true, ◌<◌};
ghost use Rattle.std.proofs.Math.Option.{none, some};
ghost use Rattle.rules.specs.Setup.{Setup};
ghost use Rattle.plan.specs.Judge.{known_format};
ghost use Rattle.plan.specs.Read.{settings};
ghost use Rattle.plan_writer.specs.Write.{planned, Within};
ghost use Rattle.plan_area.specs.Area.{Gives};
ghost use Rattle.editions.specs.Part.{PartRoom, last_in, new_in, plan_of, Fits, Stores};

use plan::Plan;
use plan_area::{plan_in, store};
use words::{set_word, word};

// The words of the two editions, and the first byte of the plan.
const LAST: usize = 0;

const NEW: usize = 1;

const PLAN: usize = 16;

// The edition last taken.
pub fn last(p: &[u8]) -> u64
    requires { PartRoom p.now }
    ensures { result ≡ last_in p.now }
{
    word(p, LAST)
}

// The edition of the page that waits; 0 where none does.
pub fn new(p: &[u8]) -> u64
    requires { PartRoom p.now }
    ensures { result ≡ new_in p.now }
{
    word(p, NEW)
}

// The plan of the page that waits; any plan, in or out of the numbers, where none does.
pub fn plan(p: &[u8]) -> Plan
    requires { PartRoom p.now }
    ensures { Gives (plan_of p.now) (planned result) × (Within (plan_of p.now) → settings result ≡ (plan_of p.now).lanes) }
{
    plan_in(&p[PLAN..])
}

// A page came into force: its edition is the last one taken, and none waits.
pub fn set_taken(p: &mut [u8], edition: u64)
    requires { PartRoom p.old × (edition < 65536) }
    ensures { Stores p.old p.new edition none × Fits p.new }
{
    set_word(p, LAST, edition);
    set_word(p, NEW, 0);
}

// A page waits, in place of one that may have waited.
pub fn set_waiting(p: &mut [u8], edition: u16, plan: Plan)
    requires { PartRoom p.old × (0 < edition) × Setup (settings plan) × (known_format plan.format ≡ true) }
    ensures { Stores p.old p.new (last_in p.old) (some (record { edition = edition; settings = settings plan })) }
{
    set_word(p, NEW, edition as u64);
    store(&mut p[PLAN..], plan);
}
