// A whole line, judged by the lines before it: refusals 51, 52, 53, 4 and 6, in this order, each at the first digit of its number.
//
// A line's numbers have up to five digits, more than a lane field's bytes hold, so they are tested here and not by the setup's reader; what they are tested
// for is the reader's own (`lane_outside`, `over` of plan/specs/Judge.antt).
ghost use Rattle.std.specs.Prelude.{◌≡◌, ◌≤◌, ◌<◌};
ghost use Rattle.sheet.specs.Judge.{verdict, row_field};

use crate::form::Row;
use plan::judge::{
    LAST_LANE, LEAST_LONGEST, LEAST_WEIGHT, MOST_LONGEST, MOST_TOTAL, MOST_WEIGHT, Seen, within,
};
use plan::parse::LaneField;
use rules::Refusal;

// The first refusal of a line, if there is one.
pub(crate) fn judged(seen: Seen, row: Row) -> Result<(), Refusal>
    requires { (seen.total ≤ 1024) × (row.weight.value < 100000) }
    ensures { result ≡ verdict seen row }
{
    let lane = row.lane;
    let weight = row.weight;
    let longest = row.longest;
    if lane.value > (LAST_LANE as u64) {
        return Err(Refusal::LaneOutside(lane.place));
    }
    if !within(LEAST_WEIGHT, MOST_WEIGHT, weight.value) {
        return Err(Refusal::WeightOutside(weight.place));
    }
    if !within(LEAST_LONGEST, MOST_LONGEST, longest.value) {
        return Err(Refusal::LongestOutside(longest.place));
    }
    if (lane.value as usize) < seen.floor {
        return Err(Refusal::OutOfOrder(lane.place));
    }
    if seen.total + weight.value > MOST_TOTAL {
        return Err(Refusal::WeightsOver(weight.place));
    }
    Ok(())
}

// The lane field that says what a line within the numbers says.
pub(crate) fn lane_field(row: Row) -> LaneField
    requires { (row.lane.value ≤ 63) × ((row.weight.value ≤ 1024) × (row.longest.value ≤ 1500)) }
    ensures { result ≡ row_field row }
{
    LaneField {
        lane: row.lane.value as u8,
        weight: row.weight.value as u16,
        longest: Some(row.longest.value as u16),
    }
}
