// What a lent table holds, told to its host: the clock, a lane's setting, its backlog, each record that waits, by its train, the editions of its settings
// pages, and how long a record can wait at worst. Nothing is taken and nothing is written.
//
// Each call tests the whole table first, as every public call does, and refuses by number: 10, 11, 70 for a train that the lane does not know, and 16 for a
// record that is not there; 13 or 71 for more records ahead than an accepted put finds. What each promises is `Shows` (specs/Shows.antt), whole.
//
// The setup in force is what `lane` tells of the lanes 0 to 63.
#![tactic(auto)]

ghost use Rattle.std.specs.Prelude.{◌≡◌, ◌+◌, ◌≤◌, ◌<◌, max};
ghost use Rattle.rules.specs.State.{setup_of, room_of};
ghost use Rattle.rules.specs.Setup.{longest_charge};
ghost use Rattle.table.specs.Means.{meant};
ghost use Rattle.editions.specs.Part.{last_in, new_in};
ghost use Rattle.paged.specs.Paged.{part_of, GoodUnit};
ghost use Rattle.show.specs.Views as Views;
ghost use Rattle.waits.specs.Lane.{setting_of_numbers, InRange};
ghost use Rattle.show.specs.Worst.{lane_most, numbers_of, no_room, BothWorst};
ghost use Rattle.show.specs.Shows.{Shows, FindIs, RowFound, SpotIs};

use rules::{Record, Refusal};
use scheduler::tested;
use table::{LANES, LaneRow, pace_of, present, record_at, row};
use turns::{COUNT_UNIT, TRAIN_DEPTH};
use units::{Bytes, Clock, line_charge};
use waits::{LaneNumbers, worst_wait};

// What the setup gives a lane, with the line's framing bytes and the group that follows; whether several trains share it.
#[derive(Clone, Copy)]
pub struct Setting {
    pub weight: u64,
    pub longest: Bytes,
    pub framing: Bytes,
    pub group: u32,
    pub shared: bool,
}

// How many records wait in a lane, and its time: S while it holds records, F while it is idle.
#[derive(Clone, Copy)]
pub struct LaneQueue {
    pub count: u64,
    pub time: Clock,
}

// The edition last taken, 0 before any, and that of the page that waits, 0 where none does.
#[derive(Clone, Copy)]
pub struct Editions {
    pub last: u64,
    pub waiting: u64,
}

// The most bytes that all lanes together send before a record is out: as the fair share has it for every setup, and by this setup's costliest record.
#[derive(Clone, Copy)]
pub struct WorstWait {
    pub asked: u64,
    pub tight: u64,
}

#[derive(Clone, Copy)]
pub enum Shown {
    Clock(Clock),
    Setting(Setting),
    Backlog(LaneQueue),
    Record(Record),
    Edition(Editions),
    Wait(WorstWait),
}

// A lane's row, if the table is good and its setup has the lane.
fn find(t: &[u8], lane: u8) -> Result<LaneRow, Refusal>
    ensures { FindIs t.now lane result }
{
    let k = lane as usize;
    tested(t)?;
    if LANES <= k || !present(t, k) {
        return Err(Refusal::NoLane);
    }
    Ok(row(t, k))
}

// The clock V.
pub fn clock(t: &[u8]) -> Result<Shown, Refusal>
    ensures { Shows Views.clock t.now result }
{
    tested(t)?;
    Ok(Shown::Clock(table::clock(t)))
}

// What the setup gives a lane.
pub fn lane(t: &[u8], lane: u8) -> Result<Shown, Refusal>
    ensures { Shows (Views.lane lane) t.now result }
{
    let l = find(t, lane)?;
    // while the lane is idle, the group that stands in its row means nothing
    let p = pace_of(l);
    Ok(Shown::Setting(Setting {
        weight: l.weight,
        longest: l.longest,
        framing: l.framing,
        group: p.group,
        shared: l.shared,
    }))
}

// How many records wait in a lane, and its time.
pub fn backlog(t: &[u8], lane: u8) -> Result<Shown, Refusal>
    ensures { Shows (Views.backlog lane) t.now result }
{
    let l = find(t, lane)?;
    Ok(Shown::Backlog(LaneQueue {
        count: l.count,
        time: l.time,
    }))
}

// Where the record of a train of lane `k` that has `i` of its train before it stands among the lane's places; `l` is the lane's row. While a shared lane is
// idle, its trains' numbers mean nothing.
fn seek(t: &[u8], k: usize, l: LaneRow, train: u8, i: u64) -> Result<u64, Refusal>
    requires { RowFound t.now k l }
    ensures { SpotIs t.now k train i result }
{
    if l.shared {
        if 8 <= train {
            return Err(Refusal::NoTrain);
        }
        if l.count == 0 {
            return Err(Refusal::NothingHeld);
        }
        let number = table::train(t, k, train as usize);
        if number / COUNT_UNIT % 16 <= i {
            return Err(Refusal::NothingHeld);
        }
        return Ok(TRAIN_DEPTH * (train as u64) + (number % TRAIN_DEPTH + i) % TRAIN_DEPTH);
    }
    if train != 0 {
        return Err(Refusal::NoTrain);
    }
    if l.count <= i {
        return Err(Refusal::NothingHeld);
    }
    Ok(l.head + i)
}

// The record of a train of a lane that has `i` of its train before it; in a lane that is not shared the train is 0.
pub fn record(t: &[u8], lane: u8, train: u8, i: u64) -> Result<Shown, Refusal>
    ensures { Shows (Views.waits lane train i) t.now result }
{
    let l = find(t, lane)?;
    let p = seek(t, lane as usize, l, train, i)?;
    let e = record_at(t, lane as usize, p);
    Ok(Shown::Record(Record {
        lane,
        train,
        mark: e.mark,
        length: e.length,
    }))
}

// The edition last taken, and that of the page that waits.
pub fn edition(t: &[u8]) -> Result<Shown, Refusal>
    ensures { Shows Views.edition t.now result }
{
    tested(t)?;
    Ok(Shown::Edition(editions_of(t)))
}

// The editions of a good table.
fn editions_of(t: &[u8]) -> Editions
    requires { GoodUnit t.now }
    ensures { (result.last ≡ last_in (part_of t.now)) × (result.waiting ≡ new_in (part_of t.now)) }
{
    let last = editions::last(&t[table::SIZE..]);
    let waiting = editions::new(&t[table::SIZE..]);
    Editions { last, waiting }
}

// What the longest record of a lane is charged for.
fn row_most(l: LaneRow) -> u64
    requires { (l.longest.0 ≤ 1500) × (l.framing.0 ≤ 64) }
    ensures { result ≡ l.longest.0 + l.framing.0 }
{
    l.longest.0 + l.framing.0
}

// What the longest record of lane `k` is charged for; 0 where the setup has no such lane.
fn most_of(t: &[u8], k: usize) -> u64
    requires { GoodUnit t.now × (k < 64) }
    ensures { result ≡ lane_most t.now k }
{
    if !present(t, k) {
        return 0;
    }
    row_most(row(t, k))
}

fn greater(a: u64, b: u64) -> u64
    ensures { result ≡ max a b }
{
    a.max(b)
}

// What the costliest record of the setup is charged for.
fn costliest(t: &[u8]) -> u64
    requires { GoodUnit t.now }
    ensures { (result ≡ longest_charge (setup_of (meant t.now))) × (result ≤ 1564) }
{
    let mut most = 0u64;
    for k in 0..LANES {
        let here = most_of(t, k);
        most = greater(most, here);
    }
    most
}

// The numbers of a row that a wait goes by.
fn numbers(l: LaneRow) -> LaneNumbers
    ensures { result ≡ numbers_of l }
{
    LaneNumbers {
        weight: l.weight,
        longest: l.longest,
        framing: l.framing,
        shared: l.shared,
    }
}

// Both figures, of a lane of these numbers.
fn both(t: &[u8], l: LaneNumbers, ahead: u64) -> WorstWait
    requires { GoodUnit t.now × InRange l ahead }
    ensures { BothWorst t.now l ahead result }
{
    let framing = l.framing;
    let asked = worst_wait(l, ahead, line_charge(Bytes(1500 + framing.0)));
    let most = costliest(t);
    let tight = worst_wait(l, ahead, line_charge(Bytes(most)));
    WorstWait { asked, tight }
}

// How many records may wait in a lane before one that is accepted; in a shared lane, of its own train.
fn room(l: LaneNumbers) -> u64
    ensures { result ≡ room_of (setting_of_numbers l) }
{
    if l.shared { 8 } else { 64 }
}

// The refusal of a put for which there is no room.
fn no_room(shared: bool) -> Refusal
    ensures { result ≡ no_room shared }
{
    if shared {
        Refusal::TrainFull
    } else {
        Refusal::LaneFull
    }
}

// How long a record can wait at worst that was put to a lane and reported `ahead`.
pub fn wait(t: &[u8], lane: u8, ahead: u64) -> Result<Shown, Refusal>
    ensures { Shows (Views.wait lane ahead) t.now result }
{
    let given = numbers(find(t, lane)?);
    if room(given) <= ahead {
        return Err(no_room(given.shared));
    }
    Ok(Shown::Wait(both(t, given, ahead)))
}
