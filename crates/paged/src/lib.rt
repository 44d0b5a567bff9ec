// A whole table: its core, which the calls of the rules know (crates `table`, `engine`), and behind it the page's part (crate `editions`; docs/RULES.md, R19).
//
// `good_unit` is the good-table test of the public calls: the core's (crate `good`) and that of the page's part (crate `page_test`). The other functions are
// inner ones: a page comes into force, one waits, and what a take does with a page that waits once nothing is held.
//
// The page's part is lent to the crates below as the end of the table, so that what they store there leaves the core, and what the core's calls store leaves
// the part, by the promises that both have of bytes that are not theirs.
#![tactic(auto)]

ghost use Rattle.std.specs.Prelude.{◌≡◌, true, map, ◌<◌, ◌≤◌, length};
ghost use Rattle.std.proofs.Math.Option.{some};
ghost use Rattle.rules.specs.State.{any_holds};
ghost use Rattle.rules.specs.Setup.{Setup};
ghost use Rattle.plan.specs.Judge.{known_format};
ghost use Rattle.plan.specs.Read.{setting_of, settings};
ghost use Rattle.pages.specs.Device.{in_force_of, settled_device};
ghost use Rattle.editions.specs.Part.{last_in, waiting_in};
ghost use Rattle.table.specs.Layout.{table_size};
ghost use Rattle.table.specs.Means.{meant};
ghost use Rattle.lane_test.specs.Says.{Says};
ghost use Rattle.paged.specs.Paged.{part_of, GoodUnit};
ghost use Rattle.paged.specs.Settles.{Filed, Rests, LeadsDevice};

use editions::{set_taken, set_waiting};
use good::good;
use page_test::page_good;
use plan::{LANES, Lane, Plan};
use slot_lists::GROUPS;
use table::{SIZE, TABLE_SIZE};
use words::word;

// Whether a lane holds a record: some group has lanes.
pub fn held(t: &[u8]) -> bool
    requires { Filed t.now }
    ensures { result ≡ any_holds (meant t.now).lanes }
{
    word(t, GROUPS) != 0
}

// Whether the bytes are a good table, its waiting page included.
pub fn good_unit(t: &[u8]) -> bool
    ensures { Says result (GoodUnit t.now) }
{
    if t.len() < TABLE_SIZE {
        return false;
    }
    if !good(t) {
        return false;
    }
    let held = held(t);
    page_good(&t[SIZE..], held)
}

// A page comes into force: the fresh table of its setup, and its edition is the last one taken.
pub fn come_in_force(t: &mut [u8], edition: u64, lanes: [Lane; LANES])
    requires { (table_size ≤ length t.old) × (edition < 65536) × Setup (map setting_of lanes) }
    ensures { LeadsDevice t.old t.new (in_force_of (record { edition = edition; settings = map setting_of lanes })) }
{
    fresh::write(t, lanes);
    set_taken(&mut t[SIZE..], edition);
}

// A page waits, in place of one that may have waited; everything else stays.
pub fn wait(t: &mut [u8], edition: u16, plan: Plan)
    requires { Rests t.old × (0 < edition) × Setup (settings plan) × (known_format plan.format ≡ true) }
    ensures { LeadsDevice t.old t.new (record { state = meant t.old; edition = last_in (part_of t.old); waiting = some (record { edition = edition; settings = settings plan }) }) }
{
    set_waiting(&mut t[SIZE..], edition, plan);
}

// No page waits where nothing is held: once no record is held any more, the page that waits comes into force.
pub fn settle(t: &mut [u8])
    requires { Rests t.old }
    ensures { LeadsDevice t.old t.new (settled_device (meant t.old) (last_in (part_of t.old)) (waiting_in (part_of t.old))) }
{
    if held(t) {
        return;
    }
    let edition = editions::new(&t[SIZE..]);
    if edition == 0 {
        return;
    }
    let plan = editions::plan(&t[SIZE..]);
    let lanes = plan.lanes;
    come_in_force(t, edition, lanes);
}
