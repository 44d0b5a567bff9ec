// The test of a table's page part: a page may wait only while a record is held, and its edition is above the one last taken (docs/RULES.md, R19).
//
// Where no page waits, this is one compare of the edition last taken. Where one does, its plan is tested by the test of the setup writer, the same that
// refuses a host's plan by 55.
#![tactic(auto)]

ghost use Rattle.lane_test.specs.Says.{Says};
ghost use Rattle.editions.specs.Part.{PartRoom, GoodPart};

use editions::{last, new, plan};
use plan_writer::within;

// An edition has two bytes.
const MOST_EDITION: u64 = 65535;

// Whether the page's part is good, where a lane holds a record (`held`) or none does.
pub fn page_good(p: &[u8], held: bool) -> bool
    requires { PartRoom p.now }
    ensures { Says result (GoodPart held p.now) }
{
    let taken = last(p);
    if MOST_EDITION < taken {
        return false;
    }
    let waits = new(p);
    if waits == 0 {
        return true;
    }
    if !held {
        return false;
    }
    if MOST_EDITION < waits {
        return false;
    }
    if waits <= taken {
        return false;
    }
    within(plan(p))
}
