// The reader of the office's text sheet: a plan as lines of three decimal numbers, lane, weight and longest.
//
//   form    a line of the sheet, byte by byte: what each byte does to what is read of the line so far; refusal 80
//   judge   a whole line, judged by the lines before it: refusals 51, 52, 53, 4 and 6, in this order
//   lib     the walk over the bytes: `read_sheet`; refusal 81
//
// `read_sheet` takes any bytes. What it answers is `read_sheet` of specs/Read.antt, and specs/Promises.antt says which sheets are read, and what 80 and 81
// say of the sheets of the form. The plan is of format 2 and has no framing bytes and no shared lane.
//
// Units: a place is a number of bytes from the first byte of the sheet, a longest a number of bytes; weights are plain numbers.
#![tactic(auto)]

ghost use Rattle.std.specs.Prelude.{◌≡◌, map, ◌≤◌, ◌<◌, length, get_or};
ghost use Rattle.plan.specs.Read.{setting_of, placed, setup_reply};
ghost use Rattle.plan.specs.declared.parse.SetupField.TheVariants as fields;
ghost use Rattle.sheet.specs.Judge.{row_field};
ghost use Rattle.sheet.specs.Read.{sheet_format, blank, read_sheet};

mod form;
mod judge;

use form::{Line, Part, Row, Step};
use plan::judge::{SECOND_FORMAT, Seen, after};
use plan::parse::SetupField;
use plan::{LANES, Lane, Plan, Reading};
use rules::Refusal;

// The format of a plan that comes from a sheet.
const FORMAT: u16 = SECOND_FORMAT;

// Puts the lane that a line describes among the lanes. In place: by value the lanes were copied for each line.
fn place(lanes: &mut [Lane; LANES], row: Row)
    requires { (row.lane.value ≤ 63) × ((row.weight.value ≤ 1024) × (row.longest.value ≤ 1500)) }
    ensures { map setting_of lanes.new ≡ placed sheet_format 0 (map setting_of lanes.old) (fields.Lane (row_field row)) }
{
    let k = row.lane.value as usize;
    lanes[k] = Lane {
        weight: row.weight.value as u16,
        longest: row.longest.value as u16,
        framing: 0,
        shared: false,
    };
}

// Nothing of the line is read.
fn blank(f: Line) -> bool
    ensures { result ≡ blank f.part f.begun }
{
    f.part == Part::Lane && !f.begun
}

// The plan of a sheet, and the place after its last line. Not inlined: a sheet of one line takes 1,316 instructions so, and 1,896 inlined.
#[inline(never)]
pub fn read_sheet(s: &[u8]) -> Result<Reading, Refusal>
    ensures { setup_reply result ≡ read_sheet s.now }
{
    let mut lanes = plan::no_lanes();
    let mut seen = Seen {
        begun: true,
        opening: false,
        laned: false,
        format: FORMAT,
        framing: 0,
        floor: 0,
        total: 0,
        count: 0,
    };
    let mut f = form::begin(0);
    for i in 0..s.len() {
        match form::read_byte(f, i, s[i] as u64) {
            Step::Wrong => return Err(Refusal::WrongByte(i)),
            Step::More(g) => {
                f = g;
            }
            Step::Whole(row) => {
                judge::judged(seen, row)?;
                place(&mut lanes, row);
                seen = after(seen, SetupField::Lane(judge::lane_field(row)));
                f = form::begin(i + 1);
            }
        }
    }
    let end = s.len();
    if !blank(f) {
        return Err(Refusal::SheetCut(end));
    }
    if seen.count == 0 {
        return Err(Refusal::SheetCut(end));
    }
    Ok(Reading {
        plan: Plan {
            format: FORMAT,
            lanes,
            count: seen.count,
        },
        next: end,
    })
}
