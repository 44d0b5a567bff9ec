// The setup reader (docs/RULES.md, R8), with the refusals 1 to 4, 50 to 54 and 6.
//
//   parse    one field of a setup, taken apart: refusals 1 to 3, in the order 1 (header), 2, 3, 1 (value)
//   reader   the reader, a struct of the lent bytes and a place: each field is read through it, and it moves on by a field
//   judge    a field judged by the fields before it: refusals 4, 50 to 54 and 6, in this order
//   lib      the walk: `read_plan` where a setup stands in a longer input, `read_setup` where it is the whole input
//
// The walk moves by fields, and nothing is written but the plan, which is answered by value. `read_plan` and `read_setup` take any bytes and any place.
// What they answer is `read_plan` and `read_setup` of specs/Read.antt, and specs/Promises.antt says that exactly the setups within the numbers are read.
//
// Units: a place is a number of bytes from the first byte of the input, a length, a longest and the framing bytes are numbers of bytes; weights are plain numbers.
#![tactic(auto)]

ghost use Rattle.std.specs.Prelude.{◌≡◌, map};
ghost use Rattle.plan.specs.Judge.{given, Inside, Numbered};
ghost use Rattle.plan.specs.Read.{no_lanes, placed, setting_of, setup_reply, read_plan, read_setup};

pub mod judge;
pub mod parse;
pub mod reader;

use judge::Seen;
use parse::{LaneField, SetupField};
use rules::Refusal;

// R1.1: how many lane numbers there are.
pub const LANES: usize = 64;

// What a setup gives a lane, the line's framing bytes among it, and whether trains share it. Weight 0: the lane is not in the setup, and has none.
//
// The numbers are as wide as in a setup's fields and no wider: a plan is passed by value, so its size is what a call of the library needs of the stack.
#[derive(Clone, Copy)]
pub struct Lane {
    pub weight: u16,
    pub longest: u16,
    pub framing: u8,
    pub shared: bool,
}

// A setup by value: its format, a lane for each number, and how many of them are there.
#[derive(Clone, Copy)]
pub struct Plan {
    pub format: u16,
    pub lanes: [Lane; LANES],
    pub count: usize,
}

// A plan that was read, and the place after its 0x7F.
#[derive(Clone, Copy)]
pub struct Reading {
    pub plan: Plan,
    pub next: usize,
}

// The lane that a field of a setup describes; a longest that is left out is the format's.
fn lane_of(l: LaneField, format: u16, framing: u8) -> Lane
    ensures { setting_of result ≡ given format framing l }
{
    let longest = l.longest;
    Lane {
        weight: l.weight,
        longest: judge::longest_of(format, longest),
        framing,
        shared: false,
    }
}

pub fn no_lanes() -> [Lane; LANES]
    ensures { map setting_of result ≡ no_lanes }
{
    [Lane {
        weight: 0,
        longest: 0,
        framing: 0,
        shared: false,
    }; LANES]
}

// Puts the lane that a field describes among the lanes, in a setup of this format and on a line with so many framing bytes. In place: by value the lanes
// were copied for each field.
fn place(lanes: &mut [Lane; LANES], format: u16, framing: u8, field: SetupField)
    requires { Inside field × Numbered field }
    ensures { map setting_of lanes.new ≡ placed format framing (map setting_of lanes.old) field }
{
    match field {
        SetupField::Format(_) => {}
        SetupField::Lane(l) => {
            let k = l.lane as usize;
            lanes[k] = lane_of(l, format, framing);
        }
        SetupField::Framing(_) => {}
        SetupField::Shared(l) => {
            let k = l as usize;
            let mut lane = lanes[k];
            lane.shared = true;
            lanes[k] = lane;
        }
        SetupField::End => {}
    }
}

// The setup that stands at a place of an input, up to its 0x7F. What follows that is not looked at.
pub fn read_plan(s: &[u8], at: usize) -> Result<Reading, Refusal>
    ensures { setup_reply result ≡ read_plan s.now at }
{
    let mut lanes = no_lanes();
    let mut seen = Seen {
        begun: false,
        opening: false,
        laned: false,
        format: 0,
        framing: 0,
        floor: 0,
        total: 0,
        count: 0,
    };
    let mut p = at;
    loop {
        let (field, _) = judge::judged_field(s, p, seen)?;
        let next = reader::next_at(s, p);
        if parse::ends(field) {
            return Ok(Reading {
                plan: Plan {
                    format: seen.format,
                    lanes,
                    count: seen.count,
                },
                next,
            });
        }
        place(&mut lanes, seen.format, seen.framing, field);
        seen = judge::after(seen, field);
        p = next;
    }
}

// A setup that is the whole input, as for making a table: a byte after its 0x7F is out of order.
pub fn read_setup(s: &[u8]) -> Result<Reading, Refusal>
    ensures { setup_reply result ≡ read_setup s.now }
{
    let r = read_plan(s, 0)?;
    if r.next < s.len() {
        return Err(Refusal::OutOfOrder(r.next));
    }
    Ok(r)
}
