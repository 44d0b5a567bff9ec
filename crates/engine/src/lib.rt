// The calls on a table known to be good (docs/RULES.md, R3), worked in the table's own words.
//
// Each does what the rules do (specs/Does.antt) with the state that the table means. They rest on `Known`: what the good-table test shows, and what every
// call from a fresh table keeps. The public calls, which test the table each time, are in `scheduler`. None of put, take and look goes through the lanes:
// what they cost does not grow with their number, but for a put that takes the clock back.
//
// Units: lengths are `Bytes`, times are `Clock`; only `lane_charge` and `line_charge` of `units` turn the first into the second.
#![tactic(auto)]

ghost use Rattle.std.specs.Prelude.{◌≡◌, ◌⊎◌, ℕ, ◌^◌, ◌<◌, ◌≤◌, eqb};
ghost use Rattle.std.proofs.Math.Option.{some};
ghost use Rattle.std.proofs.Math.IntN.{sub_ℕ};
ghost use Rattle.rules.specs.Calls as Calls;
ghost use Rattle.rules.specs.Calls.{accept, put_refusal};
ghost use Rattle.rules.proofs.Keep.{Allowed};
ghost use Rattle.table.specs.Layout.{Room, cells};
ghost use Rattle.table.specs.Means.{meant, Sound};
ghost use Rattle.queue.specs.Queue.{waiting};
ghost use Rattle.slot_lists.specs.Lists.{groups_at, start_at, Solid};
ghost use Rattle.filing.specs.Filing.{never};
ghost use Rattle.choice.specs.Known.{Known, Standing};
ghost use Rattle.engine.specs.Turns.{Turns, Reaching, Settled};
ghost use Rattle.engine.specs.Does.{SaysReply, Does, lane_trains, queue_depth, held_by, verdict_is, Placeless, Finds, Idle, Serves};

use back::take_back;
use choice::{Place, chosen, set_words};
use fresh::renew;
use groups::settled_clock;
use lane_moves::{add, refile};
use parts::TRAINS;
use queue::{Item, append, first, take_first, wake};
use rules::{Answer, Record, Refusal};
use slot_lists::GROUPS;
use table::{DEPTH, LaneRow, charged, clock, present, row, set_clock};
use turns::{COUNT_UNIT, TRAIN_DEPTH};
use units::{Bytes, Clock, lane_charge, line_charge, rounded_start};
use words::word;

// How many trains a lane knows: one that is not shared has train 0 alone.
fn trains(shared: bool) -> usize
    ensures { result ≡ lane_trains shared }
{
    if shared { TRAINS } else { 1 }
}

// How many records of one train a lane has room for.
fn depth(shared: bool) -> u64
    ensures { result ≡ queue_depth shared }
{
    if shared { TRAIN_DEPTH } else { DEPTH }
}

// How many records of train `j` wait in lane `k`, which has the row `l`: in a lane that is not shared, all. While a shared lane is idle, its trains' words mean
// nothing.
fn train_held(t: &[u8], k: usize, l: LaneRow, j: usize) -> u64
    requires { Room t.now × (k < 64) × (j < lane_trains l.shared) }
    ensures { result ≡ held_by (cells t.now) k l j }
{
    if !l.shared {
        return l.count;
    }
    if l.count == 0 {
        return 0;
    }
    table::train(t, k, j) / COUNT_UNIT % 16
}

// Whether a put is allowed: how many records of its train the lane holds, which the put's answer says too; or the refusals in their order: 11, 70, 12, then 71 in
// a shared lane, 13 in any other.
fn put_verdict(t: &[u8], lane: u8, e: Item) -> Result<u64, Refusal>
    requires { Known t.now }
    ensures { (verdict_is result ≡ put_refusal (meant t.now) lane (waiting e)) × Placeless result × Finds (meant t.now) lane e.train result }
{
    let k = lane as usize;
    if 64 <= k {
        return Err(Refusal::NoLane);
    }
    if !present(t, k) {
        return Err(Refusal::NoLane);
    }
    let l = row(t, k);
    let j = e.train as usize;
    if trains(l.shared) <= j {
        return Err(Refusal::NoTrain);
    }
    let length = e.length;
    if length.0 == 0 {
        return Err(Refusal::BadLength);
    }
    if l.longest.0 < length.0 {
        return Err(Refusal::BadLength);
    }
    let held = train_held(t, k, l, j);
    if depth(l.shared) <= held {
        if l.shared {
            return Err(Refusal::TrainFull);
        }
        return Err(Refusal::LaneFull);
    }
    Ok(held)
}

// R3.7, R3.8: an idle lane begins at the later of its F and V, and where no other lane holds, V is moved up to its R. Lane `k` goes to the end of its slot's
// list.
fn put_first(t: &mut [u8], k: usize, e: Item)
    requires { Known t.old × Allowed (meant t.old) k (waiting e) × Idle (meant t.old) k }
    ensures { Turns t.old t.new (accept (meant t.old) k (waiting e)) }
{
    let l = row(t, k);
    let v = clock(t);
    let groups = word(t, GROUPS);
    let start = l.time.max(v);
    let group = wake(t, k, start, e);
    add(t, groups, group, start.0, k);
    if groups == 0 {
        set_clock(t, v.max(rounded_start(start, group)));
    }
}

// R3.6 to R3.8: the record goes to the end of its queue, and wakes the lane if that was idle.
fn put_record(t: &mut [u8], k: usize, e: Item)
    requires { Known t.old × Allowed (meant t.old) k (waiting e) }
    ensures { Turns t.old t.new (accept (meant t.old) k (waiting e)) }
{
    let l = row(t, k);
    if l.count == 0 {
        put_first(t, k, e);
    } else {
        append(t, k, e);
    }
}

// Put: takes the clock back where it is far on, and appends the record; or refuses. The answer: how many records of its train the lane held before.
pub fn put(t: &mut [u8], lane: u8, train: u8, mark: u32, length: Bytes) -> Result<Answer, Refusal>
    requires { Known t.old }
    ensures { Does (Calls.put lane train mark length.0) t.old result t.new }
{
    let e = Item {
        train,
        mark,
        length,
    };
    let held = put_verdict(t, lane, e)?;
    take_back(t);
    put_record(t, lane as usize, e);
    Ok(Answer::Accepted(held))
}

// R3.14: where lanes hold and none is eligible, V is set to the least R. `r` is at most V only if some group's start is.
fn settle(t: &mut [u8], v: Clock, r: u64)
    requires { Sound t.old × Solid t.old × ((i q : ℕ) → 16 ≤ i → i ≤ 31 → start_at t.old i ≡ some q → q < 2 ^ 63) × (v.0 < never) × ((r ≡ never) ⊎ Reaching t.old v.0 r) }
    ensures { Settled t.old t.new v.0 }
{
    if r <= v.0 {
        set_clock(t, v);
    } else {
        let settled = settled_clock(t, v.0);
        set_clock(t, Clock(settled));
    }
}

// A record that waits in lane `k`, as it is told.
fn record_of(k: usize, e: Item) -> Record
    requires { k < 64 }
    ensures { (result.lane ≡ k) × (result.train ≡ e.train) × (result.mark ≡ e.mark) × (result.length ≡ e.length) }
{
    Record {
        lane: k as u8,
        train: e.train,
        mark: e.mark,
        length: e.length,
    }
}

// Hands out the first record of the chosen lane, which stands at `p`.
fn serve_lane(t: &mut [u8], p: Place) -> Record
    requires { Known t.old × Standing t.old p }
    ensures { Serves t.old result t.new }
{
    let k = p.lane;
    let l = row(t, k);
    let v = clock(t);
    let e = take_first(t, k);
    let charge = charged(l, e.length);
    let finish = l.time + lane_charge(charge, l.rate);
    let r = refile(t, p.group, p.start, finish.0, k, 1 < l.count);
    settle(t, v + line_charge(charge), r);
    record_of(k, e)
}

// Take: hands out the chosen lane's first record.
pub fn take(t: &mut [u8]) -> Result<Answer, Refusal>
    requires { Known t.old }
    ensures { Does Calls.take t.old result t.new }
{
    let Some(p) = chosen(t) else {
        return Err(Refusal::NothingHeld);
    };
    Ok(Answer::Taken(serve_lane(t, p)))
}

// Look: what take would hand out.
pub fn look(t: &[u8]) -> Result<Answer, Refusal>
    requires { Known t.now }
    ensures { SaysReply Calls.look t.now result }
{
    let Some(p) = chosen(t) else {
        return Err(Refusal::NothingHeld);
    };
    let k = p.lane;
    let e = first(t, k);
    Ok(Answer::Seen(record_of(k, e)))
}

// Sets: the four words.
pub fn sets(t: &[u8]) -> Result<Answer, Refusal>
    requires { Known t.now }
    ensures { SaysReply Calls.sets t.now result }
{
    Ok(Answer::Sets(set_words(t)))
}

// The exact difference of two times, below, at or above zero.
fn difference(v: Clock, s: Clock) -> i64
    requires { (v.0 < 2 ^ 63) × (s.0 < 2 ^ 63) }
    ensures { result ≡ sub_ℕ v.0 s.0 }
{
    (v.0 as i64) - (s.0 as i64)
}

// Lag (R3.18): how far V is ahead of S, or of what S would be in an idle lane.
pub fn lag(t: &[u8], lane: u8) -> Result<Answer, Refusal>
    requires { Known t.now }
    ensures { SaysReply (Calls.lag lane) t.now result }
{
    let k = lane as usize;
    if 64 <= k {
        return Err(Refusal::NoLane);
    }
    if !present(t, k) {
        return Err(Refusal::NoLane);
    }
    let l = row(t, k);
    let v = clock(t);
    if l.count == 0 {
        return Ok(Answer::Lag(difference(v, l.time.max(v))));
    }
    Ok(Answer::Lag(difference(v, l.time)))
}

// Whether no lane holds records: no group has lanes.
fn none_held(t: &[u8]) -> bool
    requires { Room t.now }
    ensures { result ≡ eqb (groups_at t.now) 0 }
{
    word(t, GROUPS) == 0
}

// Restart (R3.19): the fresh table of the table's own setup.
pub fn restart(t: &mut [u8]) -> Result<Answer, Refusal>
    requires { Known t.old }
    ensures { Does Calls.restart t.old result t.new }
{
    if !none_held(t) {
        return Err(Refusal::StillHolds);
    }
    renew(t);
    Ok(Answer::Restarted)
}
