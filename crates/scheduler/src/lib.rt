// The public calls on a lent table: make, put, take, look, sets, lag, restart, and the offer of a settings page.
//
// None asks anything of its caller: each tests what it is given, the whole table too, each time, and refuses by number (docs/RULES.md, R14). Nothing is
// written before the last test. What each promises is `Step` and `OfferStep` (specs/Step.antt), and `MakeStep` (specs/Make.antt) for making, whole.
// specs/Demands.antt has what follows for every list of these calls (R15): a busy lane's share, the trains of a lane kept even, never 10, the records' order
// kept, the setup in force, how a unit is drained and restarted. specs/One.antt says that nothing of an answer is left open; TakeAnswer, LagAnswer, SetsAnswer,
// PutLocal and Pages say what one answer means, OrderFrom what any good table keeps.
//
// The table is SIZE bytes of the lent slice; bytes past them are never touched. `look`, `sets` and `lag` take it by `&`. The engine's calls know the table's
// core only and leave what is behind it; the page's part behind the core is crate `paged`'s.
#![tactic(auto)]

ghost use Rattle.rules.specs.Calls as Calls;
ghost use Rattle.std.specs.Prelude.{◌≡◌, true, OnOk, IfErr};
ghost use Rattle.rules.specs.Setup.{Setup};
ghost use Rattle.rules.specs.declared.Refusal.TheVariants.{NotGood};
ghost use Rattle.pages.specs.Device.{offer};
ghost use Rattle.plan.specs.Judge.{known_format};
ghost use Rattle.plan.specs.Read.{settings};
ghost use Rattle.paged.specs.Paged.{GoodUnit};
ghost use Rattle.scheduler.specs.Step.{UnitStep, Step, offering, OfferStep};
ghost use Rattle.scheduler.specs.Make.{MakeStep};
ghost use Rattle.scheduler.specs.declared.NotTaken.TheVariants.{Refused};

use editions::{last, new};
use page::read_page;
use paged::{come_in_force, good_unit, held, settle, wait};
use plan::{Plan, read_setup};
use rules::{Answer, Refusal};
use units::Bytes;

// The fixed size of a table, in bytes.
pub const SIZE: usize = table::TABLE_SIZE;

// What becomes of a page that is taken.
#[derive(Clone, Copy)]
pub enum Offered {
    // The page is in force: a fresh table of its setup stands in the lent bytes.
    InForce,
    // The page waits until nothing is held.
    Waits,
}

// Why a page is not taken.
#[derive(Clone, Copy)]
pub enum NotTaken {
    // 60: its edition is not above the last one taken or waiting.
    Old,
    Refused(Refusal),
}

impl From<Refusal> for NotTaken {
    ghost from_gives = { λ x e. e ≡ Refused x };

    fn from(x: Refusal) -> NotTaken {
        NotTaken::Refused(x)
    }
}

// Refuses bytes that are no good table.
pub fn tested(t: &[u8]) -> Result<(), Refusal>
    ensures good { OnOk result (GoodUnit t.now) }
    ensures bad { IfErr result (λ x. (GoodUnit t.now → ⊥) × (x ≡ NotGood)) }
{
    if !good_unit(t) {
        return Err(Refusal::NotGood);
    }
    Ok(())
}

// Makes the fresh table of a setup in the lent bytes, whatever they held. The answer: the number of its lanes.
#[tactic(auto, using(crate::proofs::Made::refusing))]
pub fn make(setup: &[u8], t: &mut [u8]) -> Result<usize, Refusal>
    ensures { MakeStep setup.now t.old result t.new }
{
    if t.len() < SIZE {
        return Err(Refusal::TableShort);
    }
    let plan = read_setup(setup)?.plan;
    come_in_force(t, 0, plan.lanes);
    Ok(plan.count)
}

// Puts a record of a train into a lane; in a lane that is not shared the train is 0.
pub fn put(t: &mut [u8], lane: u8, train: u8, mark: u32, length: Bytes) -> Result<Answer, Refusal>
    ensures { Step (Calls.put lane train mark length.0) t.old result t.new }
{
    tested(t)?;
    engine::put(t, lane, train, mark, length)
}

// Takes the next record. Where it was the last one held, a page that waits comes into force; this take has answered by the setup before.
pub fn take(t: &mut [u8]) -> Result<Answer, Refusal>
    ensures { Step Calls.take t.old result t.new }
{
    tested(t)?;
    let taken = engine::take(t)?;
    settle(t);
    Ok(taken)
}

// Looks at the record that take would hand out.
pub fn look(t: &[u8]) -> Result<Answer, Refusal>
    ensures { Step Calls.look t.now result t.now }
{
    tested(t)?;
    engine::look(t)
}

// The four words of the group sets.
pub fn sets(t: &[u8]) -> Result<Answer, Refusal>
    ensures { Step Calls.sets t.now result t.now }
{
    tested(t)?;
    engine::sets(t)
}

// How far the clock is ahead of a lane.
pub fn lag(t: &[u8], lane: u8) -> Result<Answer, Refusal>
    ensures { Step (Calls.lag lane) t.now result t.now }
{
    tested(t)?;
    engine::lag(t, lane)
}

// Begins anew with the table's own setup (R3.19), once no record is held.
pub fn restart(t: &mut [u8]) -> Result<Answer, Refusal>
    ensures { Step Calls.restart t.old result t.new }
{
    tested(t)?;
    engine::restart(t)
}

// Offers a settings page: 10, then what is wrong with the page, then 60.
pub fn offer(t: &mut [u8], page: &[u8]) -> Result<Offered, NotTaken>
    ensures { OfferStep page.now t.old result t.new }
{
    tested(t)?;
    let r = read_page(page)?;
    bring(t, r.edition, r.plan)
}

// Offers a page that was read to a good table.
fn bring(t: &mut [u8], edition: u16, plan: Plan) -> Result<Offered, NotTaken>
    requires { GoodUnit t.old × Setup (settings plan) × (known_format plan.format ≡ true) }
    ensures { UnitStep (offer (record { edition = edition; settings = settings plan })) t.old (offering result) t.new }
{
    let number = edition as u64;
    let taken = last(&t[table::SIZE..]);
    if number <= taken {
        return Err(NotTaken::Old);
    }
    let waiting = new(&t[table::SIZE..]);
    if number <= waiting {
        return Err(NotTaken::Old);
    }
    if held(t) {
        wait(t, edition, plan);
        return Ok(Offered::Waits);
    }
    come_in_force(t, number, plan.lanes);
    Ok(Offered::InForce)
}
