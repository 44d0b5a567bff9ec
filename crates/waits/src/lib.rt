// The worst wait of a record, from the numbers of its lane: the most bytes that the line sends before the record is out (rules/specs/Waits.antt).
//
// These are inner functions: a `requires` says what every lane of a setup meets.
//
// Units: the bound is worked out in clock units, as the fair share is; only `line_bytes` turns it into bytes of the line. c and the slot follow from the
// setting here, so that a wait needs nothing else of a table.
#![tactic(auto)]

ghost use Rattle.std.specs.Prelude.{◌≡◌, ◌+◌, ◌*◌, ◌/◌, ◌^◌, ◌≤◌, ◌<◌};
ghost use Rattle.units.specs.Numbers.{line_rate};
ghost use Rattle.rules.specs.Waits.{worst_of};
ghost use Rattle.waits.specs.Lane.{setting_of_numbers, InRange, four_slots};

use units::{Bytes, Clock, LINE_RATE, Rate, group_index, lane_charge, lane_rate, slot};

// What the setup gives a lane, with the line's framing bytes; whether several trains share it.
#[derive(Clone, Copy)]
pub struct LaneNumbers {
    pub weight: u64,
    pub longest: Bytes,
    pub framing: Bytes,
    pub shared: bool,
}

// The bytes that the line may send within these three together, rounded up: 1,024 T is below their sum exactly if T is below the result.
fn line_bytes(own: Clock, slots: Clock, margin: Clock) -> u64
    requires { (own.0 < 2 ^ 44) × (slots.0 ≤ 2 ^ 33) × (margin.0 < 2 ^ 32) }
    ensures { result ≡ (own.0 + slots.0 + margin.0 + 1023) / line_rate }
{
    ((own + slots + margin).0 + (LINE_RATE - 1)) / LINE_RATE
}

// What `count` records of this length are charged in their lane, if each is charged `times` as much.
fn charge_of(count: u64, times: u64, length: u64, c: Rate) -> Clock
    requires { (count ≤ 77) × (times ≤ 65) × (length ≤ 1564) × (c.0 ≤ 2 ^ 20) }
    ensures { (result.0 ≡ c.0 * (times * (count * length))) × (result.0 < 2 ^ 44) }
{
    Clock(c.0 * (times * (count * length)))
}

// Four slots of a lane whose longest record is charged for `charged` bytes.
fn four_slots(charged: Bytes, c: Rate) -> Clock
    requires { (charged.0 ≤ 1564) × (c.0 ≤ 2 ^ 20) }
    ensures { (result.0 ≡ four_slots charged.0 c.0) × (result.0 ≤ 2 ^ 33) }
{
    Clock(4 * slot(group_index(lane_charge(charged, c))).0)
}

// Of a record that finds `ahead` others before it, in a shared lane of its own train; `margin` is what the fair share adds.
pub fn worst_wait(l: LaneNumbers, ahead: u64, margin: Clock) -> u64
    requires { InRange l ahead × (margin.0 < 2 ^ 32) }
    ensures { result ≡ worst_of margin.0 (setting_of_numbers l) ahead }
{
    let c = lane_rate(l.weight);
    let most = l.longest + l.framing;
    let slots = four_slots(most, c);
    if l.shared {
        let own = charge_of(8 * ahead + 21, 1 + l.framing.0, l.longest.0, c);
        return line_bytes(own, slots, margin);
    }
    let own = charge_of(ahead, 1, most.0, c);
    line_bytes(own, slots, margin)
}
