// The small halt (docs/RULES.md, R20): a unit with lanes 0 to 3 of weights 512, 256, 128 and 128, longest 256 each, no framing bytes, none of them shared.
//
// It takes this setup, in either format, and no other: the plan decides, not its bytes. Its calls are the scheduler's own on a table of that setup; a table of
// another setup, or one with a page that waits, is refused by 10, as one that is not good. What each promises is `HaltStep` and `HaltMake` (specs/Halt.antt);
// specs/Lists.antt has what follows for lists of these calls, with the figures of a busy lane's share.
//
// The four weights sum to 1,024, which is all that a setup may give (R1.2). So the first four lanes tell the whole setup, of a plan and of a table.
#![tactic(auto)]

ghost use Rattle.std.specs.Prelude.{◌<◌, ◌≡◌, map, OnOk, IfErr};
ghost use Rattle.rules.specs.State.{lane_at};
ghost use Rattle.rules.specs.Setup.{Setup};
ghost use Rattle.rules.specs.Calls as Calls;
ghost use Rattle.rules.specs.declared.Refusal.TheVariants.{NotGood};
ghost use Rattle.plan.specs.Read.{setting_of, read_setup};
ghost use Rattle.table.specs.Layout.{Front};
ghost use Rattle.table.specs.Means.{meant};
ghost use Rattle.lane_test.specs.Says.{Says};
ghost use Rattle.paged.specs.Paged.{GoodUnit};
ghost use Rattle.halt.specs.Halt.{halt_lane, halt_setup, HaltTable, HaltStep, Judged, HaltMake};
ghost use Rattle.halt.specs.declared.NotMade.TheVariants.{Refused};

use plan::{LANES, Lane, read_setup};
use rules::{Answer, Refusal};
use scheduler::SIZE;
use table::{present, row};
use units::Bytes;

// The longest record of each lane.
const LONGEST: u64 = 256;

// Why no table is made.
#[derive(Clone, Copy)]
pub enum NotMade {
    // 90: a good setup that is not the halt's.
    NotAHalt,
    Refused(Refusal),
}

impl From<Refusal> for NotMade {
    ghost from_gives = { λ x e. e ≡ Refused x };

    fn from(x: Refusal) -> NotMade {
        NotMade::Refused(x)
    }
}

// Whether a lane's numbers are those of the halt's lane of a weight.
fn numbers_are(weight: u64, longest: u64, framing: u64, shared: bool, wanted: u64) -> bool
    ensures { Says result (record { weight = weight; longest = longest; framing = framing; shared = shared } ≡ halt_lane wanted) }
{
    if shared {
        return false;
    }
    if weight != wanted {
        return false;
    }
    if longest != LONGEST {
        return false;
    }
    framing == 0
}

// Whether a lane of a plan is one of the halt's, of a weight.
fn lane_is(g: Lane, weight: u64) -> bool
    ensures { Says result (setting_of g ≡ halt_lane weight) }
{
    numbers_are(
        g.weight as u64,
        g.longest as u64,
        g.framing as u64,
        g.shared,
        weight,
    )
}

// Whether the lanes of a setup are the halt's.
fn lanes_are(lanes: [Lane; LANES]) -> bool
    requires { Setup (map setting_of lanes) }
    ensures { Says result (map setting_of lanes ≡ halt_setup) }
{
    if !lane_is(lanes[0], 512) {
        return false;
    }
    if !lane_is(lanes[1], 256) {
        return false;
    }
    if !lane_is(lanes[2], 128) {
        return false;
    }
    lane_is(lanes[3], 128)
}

// Whether these bytes are a good setup that is not the halt's.
fn other_plan(setup: &[u8]) -> bool
    ensures { Judged result (read_setup setup.now) }
{
    match read_setup(setup) {
        Ok(r) => !lanes_are(r.plan.lanes),
        Err(_) => false,
    }
}

// Whether lane `k` of a table is one of the halt's, of a weight. The words of a lane that is not in the setup mean nothing.
fn has_lane(t: &[u8], k: usize, weight: u64) -> bool
    requires { Front t.now × (k < 64) × (0 < weight) }
    ensures { Says result ((lane_at (meant t.now) k).given ≡ halt_lane weight) }
{
    if !present(t, k) {
        return false;
    }
    let l = row(t, k);
    numbers_are(l.weight, l.longest.0, l.framing.0, l.shared, weight)
}

// Whether a good table is the halt's: of its setup, and with no page that waits. Of bytes that are no good table it says nothing; the scheduler's calls find
// those out.
fn is_halt(t: &[u8]) -> bool
    ensures { GoodUnit t.now → Says result (HaltTable t.now) }
{
    if t.len() < SIZE {
        return false;
    }
    if editions::new(&t[table::SIZE..]) != 0 {
        return false;
    }
    if !has_lane(t, 0, 512) {
        return false;
    }
    if !has_lane(t, 1, 256) {
        return false;
    }
    if !has_lane(t, 2, 128) {
        return false;
    }
    has_lane(t, 3, 128)
}

// Refuses by 10 what is no table of the halt's; bytes that are no good table it may pass, which the scheduler's calls refuse by the same number.
fn halted(t: &[u8]) -> Result<(), Refusal>
    ensures good { OnOk result (GoodUnit t.now → HaltTable t.now) }
    ensures bad { IfErr result (λ x. (HaltTable t.now → ⊥) × (x ≡ NotGood)) }
{
    if !is_halt(t) {
        return Err(Refusal::NotGood);
    }
    Ok(())
}

// Makes the halt's fresh table in the lent bytes, whatever they held: 7, then what is wrong with the setup, then 90. The answer: the number of its lanes.
pub fn make(setup: &[u8], t: &mut [u8]) -> Result<usize, NotMade>
    ensures { HaltMake setup.now t.old result t.new }
{
    if t.len() < SIZE {
        return Err(NotMade::Refused(Refusal::TableShort));
    }
    if other_plan(setup) {
        return Err(NotMade::NotAHalt);
    }
    let lanes = scheduler::make(setup, t)?;
    Ok(lanes)
}

// Puts a record into a lane; no lane of the halt's is shared, so the train is 0.
pub fn put(t: &mut [u8], lane: u8, mark: u32, length: Bytes) -> Result<Answer, Refusal>
    ensures { HaltStep (Calls.put lane 0 mark length.0) t.old result t.new }
{
    halted(t)?;
    scheduler::put(t, lane, 0, mark, length)
}

// Takes the next record.
pub fn take(t: &mut [u8]) -> Result<Answer, Refusal>
    ensures { HaltStep Calls.take t.old result t.new }
{
    halted(t)?;
    scheduler::take(t)
}

// Looks at the record that take would hand out.
pub fn look(t: &[u8]) -> Result<Answer, Refusal>
    ensures { HaltStep Calls.look t.now result t.now }
{
    halted(t)?;
    scheduler::look(t)
}

// The four words of the group sets.
pub fn sets(t: &[u8]) -> Result<Answer, Refusal>
    ensures { HaltStep Calls.sets t.now result t.now }
{
    halted(t)?;
    scheduler::sets(t)
}

// How far the clock is ahead of a lane.
pub fn lag(t: &[u8], lane: u8) -> Result<Answer, Refusal>
    ensures { HaltStep (Calls.lag lane) t.now result t.now }
{
    halted(t)?;
    scheduler::lag(t, lane)
}

// Begins anew (R3.19), once no record is held. The last edition stays.
pub fn restart(t: &mut [u8]) -> Result<Answer, Refusal>
    ensures { HaltStep Calls.restart t.old result t.new }
{
    halted(t)?;
    scheduler::restart(t)
}
