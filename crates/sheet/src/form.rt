// A line of a sheet, byte by byte: three numbers of one to five digits, none with a 0 before another digit; a space behind the first and the second, a line
// feed behind the third.
ghost use Rattle.std.specs.Prelude.{◌≡◌, true, false, ◌+◌, ◌^◌, ◌≤◌, ◌<◌};
ghost use Rattle.sheet.specs.Form.{is_digit, extends, stop, no_digits, new_line, grown, number_closed, line_step};

const ZERO: u64 = b'0' as u64;

const NINE: u64 = b'9' as u64;

const SPACE: u64 = b' ' as u64;

const LINE_FEED: u64 = b'\n' as u64;

// Below it a number has fewer than five digits.
const FIVE_DIGITS: u64 = 10000;

// Which of a line's numbers is being read.
#[derive(Clone, Copy, PartialEq, Eq)]
pub enum Part {
    Lane,
    Weight,
    Longest,
}

// A number, and the place of its first digit.
#[derive(Clone, Copy)]
pub struct Figure {
    pub value: u64,
    pub place: usize,
}

// A line so far: the numbers that are read, and the last one as far as it goes.
#[derive(Clone, Copy)]
pub struct Line {
    pub part: Part,
    pub lane: Figure,
    pub weight: Figure,
    // Some digit of the last number was read.
    pub begun: bool,
    pub last: Figure,
}

// A whole line.
#[derive(Clone, Copy)]
pub struct Row {
    pub lane: Figure,
    pub weight: Figure,
    pub longest: Figure,
}

// What a byte does to a line.
#[derive(Clone, Copy)]
pub enum Step {
    More(Line),
    Whole(Row),
    Wrong,
}

fn digit(b: u64) -> bool
    ensures { result ≡ is_digit b }
{
    if ZERO <= b { b <= NINE } else { false }
}

// Whether a digit may follow: the first, or one behind a number that is not 0 and has fewer than five.
fn extends(begun: bool, value: u64) -> bool
    ensures { result ≡ extends begun value }
{
    if begun {
        if 0 < value {
            value < FIVE_DIGITS
        } else {
            false
        }
    } else {
        true
    }
}

fn stop(part: Part) -> u64
    ensures { result ≡ stop part }
{
    match part {
        Part::Lane => SPACE,
        Part::Weight => SPACE,
        Part::Longest => LINE_FEED,
    }
}

fn unread(at: usize) -> Figure
    ensures { result ≡ no_digits at }
{
    Figure {
        value: 0,
        place: at,
    }
}

// A line that begins at a place.
pub(crate) fn begin(at: usize) -> Line
    ensures { result ≡ new_line at }
{
    let none = unread(at);
    Line {
        part: Part::Lane,
        lane: none,
        weight: none,
        begun: false,
        last: none,
    }
}

// The last number with a digit more.
fn grown(f: Line, b: u64) -> Line
    requires { (f.last.value ≤ 9999) × ((48 ≤ b) × (b ≤ 57)) }
    ensures { result ≡ grown f b }
{
    Line {
        begun: true,
        last: Figure {
            value: f.last.value * 10 + (b - ZERO),
            ..f.last
        },
        ..f
    }
}

// The last number is read: the next one begins at a place, or the line is whole.
fn closed(f: Line, at: usize) -> Step
    ensures { result ≡ number_closed f.part f at }
{
    match f.part {
        Part::Lane => Step::More(Line {
            part: Part::Weight,
            lane: f.last,
            begun: false,
            last: unread(at),
            ..f
        }),
        Part::Weight => Step::More(Line {
            part: Part::Longest,
            weight: f.last,
            begun: false,
            last: unread(at),
            ..f
        }),
        Part::Longest => Step::Whole(Row {
            lane: f.lane,
            weight: f.weight,
            longest: f.last,
        }),
    }
}

// What the byte at a place does to a line.
pub(crate) fn read_byte(f: Line, at: usize, b: u64) -> Step
    requires { (at + 1 < 2 ^ 64) × ((f.begun ≡ false) → f.last.value ≡ 0) }
    ensures { result ≡ line_step f at b }
{
    let part = f.part;
    if digit(b) {
        if extends(f.begun, f.last.value) {
            return Step::More(grown(f, b));
        }
        return Step::Wrong;
    }
    if f.begun {
        if b == stop(part) {
            return closed(f, at + 1);
        }
    }
    Step::Wrong
}
