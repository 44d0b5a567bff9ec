// The answer lines of a session (R10.12) into lent bytes.
//
// specs/Line.antt has each line as a definition, and proofs/Most.antt the law that none is longer than 64 bytes, from which 17's figure follows. Each
// function writes its line at a place and answers the place behind it. These are inner functions: each requires 64 bytes there.
#![tactic(auto)]

ghost use Rattle.std.specs.Prelude.{◌≡◌, ◌+◌, ◌≤◌, ◌<◌, [], ◌∷◌, length};
ghost use Rattle.text.specs.Decimal.{decimal};
ghost use Rattle.rules.specs.Calls.{words};
ghost use Rattle.rules.specs.Reads.{number, place_of};
ghost use Rattle.lines.specs.Line.{place_is, text_line, put_ok, restart_ok, record_line, sets_word, lag_line, no_line, lanes_line, end_line, Words32, Wrote, Line};

use rules::{Record, Refusal, SetWords};
use text::{put_number, put_signed, put_word};

const SPACE: u8 = 32;

const LINE_FEED: u8 = 10;

// A number after a space.
fn put_spaced(a: &mut [u8], at: usize, n: u64) -> usize
    requires { at + length (32 ∷ decimal n) ≤ length a.old }
    ensures { Wrote a.old a.new at (32 ∷ decimal n) result }
{
    a[at] = SPACE;
    put_number(a, at + 1, n)
}

// A word, numbers each after a space, and the line feed.
fn put_line(a: &mut [u8], at: usize, word: &[u8], ns: &[u64]) -> usize
    requires { at + length (text_line word.now ns.now) ≤ length a.old }
    ensures { Wrote a.old a.new at (text_line word.now ns.now) result }
{
    let mut p = put_word(a, at, word);
    for n in ns {
        p = put_spaced(a, p, *n);
    }
    a[p] = LINE_FEED;
    p + 1
}

// A word and one number.
fn put_one(a: &mut [u8], at: usize, word: &[u8], n: u64) -> usize
    requires { (length word.now ≤ 10) × (at + 64 ≤ length a.old) }
    ensures { Line a.old a.new at (text_line word.now (n ∷ [])) result }
{
    let ns = [n];
    put_line(a, at, word, &ns)
}

// `put ok N`.
pub fn put_accepted(a: &mut [u8], at: usize, n: u64) -> usize
    requires { at + 64 ≤ length a.old }
    ensures { Line a.old a.new at (text_line put_ok (n ∷ [])) result }
{
    let p = put_word(a, at, b"put ok");
    let q = put_spaced(a, p, n);
    a[q] = LINE_FEED;
    q + 1
}

// Three numbers, each after a space, and the line feed.
fn put_three(a: &mut [u8], at: usize, l: u64, m: u64, n: u64) -> usize
    requires { at + length (text_line [] (l ∷ m ∷ n ∷ [])) ≤ length a.old }
    ensures { Wrote a.old a.new at (text_line [] (l ∷ m ∷ n ∷ [])) result }
{
    let p = put_spaced(a, at, l);
    let q = put_spaced(a, p, m);
    let r = put_spaced(a, q, n);
    a[r] = LINE_FEED;
    r + 1
}

// A record's numbers and the line feed, whatever the numbers are.
fn put_any(a: &mut [u8], at: usize, x: Record, shared: bool) -> usize
    requires { at + length (record_line [] shared x.lane x.train x.mark x.length.0) ≤ length a.old }
    ensures { Wrote a.old a.new at (record_line [] shared x.lane x.train x.mark x.length.0) result }
{
    let n = x.length;
    if shared {
        let ns = [x.lane as u64, x.mark as u64, n.0, x.train as u64];
        return put_line(a, at, &[], &ns);
    }
    let ns = [x.lane as u64, x.mark as u64, n.0];
    put_line(a, at, &[], &ns)
}

// `L M N` behind `take` or `look`, of a shared lane with the train behind. Mark and length of up to four digits, as most are, are written without a loop.
pub fn put_record(a: &mut [u8], at: usize, x: Record, shared: bool) -> usize
    requires { at + length (record_line [] shared x.lane x.train x.mark x.length.0) ≤ length a.old }
    ensures { Wrote a.old a.new at (record_line [] shared x.lane x.train x.mark x.length.0) result }
{
    let n = x.length;
    if !shared {
        if x.mark < 10000 {
            if n.0 < 10000 {
                return put_three(a, at, x.lane as u64, x.mark as u64, n.0);
            }
        }
    }
    put_any(a, at, x, shared)
}

// `sets A B C D`.
pub fn put_sets(a: &mut [u8], at: usize, w: SetWords) -> usize
    requires { Words32 (words w.er w.ir w.eb w.ib) × (at + 64 ≤ length a.old) }
    ensures { Line a.old a.new at (text_line sets_word (w.er ∷ w.ir ∷ w.eb ∷ w.ib ∷ [])) result }
{
    let ns = [w.er, w.ir, w.eb, w.ib];
    put_line(a, at, b"sets", &ns)
}

// `lag N`, with a minus sign below zero.
pub fn put_lag(a: &mut [u8], at: usize, z: i64) -> usize
    requires { at + 64 ≤ length a.old }
    ensures { Line a.old a.new at (lag_line z) result }
{
    let mut p = put_word(a, at, b"lag ");
    p = put_signed(a, p, z);
    a[p] = LINE_FEED;
    p + 1
}

// A refusal's number. Each is below 256, so that a line with it is short.
pub fn number(x: Refusal) -> u64
    ensures { (result ≡ number x) × (result < 256) }
{
    u64::from(x)
}

// A refusal's place, where R14 has one.
pub fn place_of(x: Refusal) -> Option<usize>
    ensures { place_is result ≡ place_of x }
{
    match x {
        Refusal::Cut(p) => Some(p),
        Refusal::UnknownTag(p) => Some(p),
        Refusal::WrongLength(p) => Some(p),
        Refusal::OutOfOrder(p) => Some(p),
        Refusal::WeightsOver(p) => Some(p),
        Refusal::TableShort => Some(0),
        Refusal::NotGood => None,
        Refusal::NoLane => None,
        Refusal::BadLength => None,
        Refusal::LaneFull => None,
        Refusal::StillHolds => None,
        Refusal::NothingHeld => None,
        Refusal::RunBounds => None,
        Refusal::InputLong => None,
        Refusal::FormatOutside(p) => Some(p),
        Refusal::LaneOutside(p) => Some(p),
        Refusal::WeightOutside(p) => Some(p),
        Refusal::LongestOutside(p) => Some(p),
        Refusal::FramingOutside(p) => Some(p),
        Refusal::WrongByte(p) => Some(p),
        Refusal::SheetCut(p) => Some(p),
        Refusal::NoSheet => None,
        Refusal::NoTrain => None,
        Refusal::TrainFull => None,
    }
}

// `no R PLACE`, or `no R` where there is no place.
pub fn put_no(a: &mut [u8], at: usize, x: Refusal) -> usize
    requires { at + 64 ≤ length a.old }
    ensures { Line a.old a.new at (no_line (number x) (place_of x)) result }
{
    let n = number(x);
    match place_of(x) {
        Some(p) => {
            let ns = [n, p as u64];
            put_line(a, at, b"no", &ns)
        }
        None => put_one(a, at, b"no", n),
    }
}

// `lanes N`, once the setup is read.
pub fn put_lanes(a: &mut [u8], at: usize, n: u64) -> usize
    requires { at + 64 ≤ length a.old }
    ensures { Line a.old a.new at (lanes_line n) result }
{
    put_one(a, at, b"lanes", n)
}

// `end N`, the last line.
pub fn put_end(a: &mut [u8], at: usize, n: u64) -> usize
    requires { at + 64 ≤ length a.old }
    ensures { Line a.old a.new at (end_line n) result }
{
    put_one(a, at, b"end", n)
}

// `restart ok`.
pub fn put_restarted(a: &mut [u8], at: usize) -> usize
    requires { at + 64 ≤ length a.old }
    ensures { Line a.old a.new at (text_line restart_ok []) result }
{
    put_line(a, at, b"restart ok", &[])
}
