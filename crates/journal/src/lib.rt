// The desk's journal: the public calls on a lent board: begin, record, clear and line (docs/RULES.md, R11).
//
// None asks anything of its caller: each tests what it is given, the whole board too, and refuses by number. Nothing is written before the last test.
// What each promises is in specs/Step.antt. The board is SIZE bytes of the lent slice; bytes past them are never touched.
#![tactic(auto)]

ghost use Rattle.std.specs.Prelude.{◌≡◌, ◌+◌, ◌^◌, ◌<◌, ◌≤◌, length, true};
ghost use Rattle.desk.specs.Board.{is_of, InField};
ghost use Rattle.desk.specs.Calls as Calls;
ghost use Rattle.board.specs.Layout.{board_of, ShowsBoard, Found};
ghost use Rattle.journal.specs.Record.{rec_line, RecordRead};
ghost use Rattle.journal.specs.Field.{ReadingIs};
ghost use Rattle.journal.specs.Reads.{board_listed};
ghost use Rattle.journal.specs.Step.{BoardStep, RecordStep, LineStep, BeginStep};

use board::{find, line_at, lowest, set_line, sound};
use desk_line::{Line, changed};
use fields::{Field, field_at, fits, u16_at, u32_at};
use words::set_word;

// The fixed size of a board, in bytes.
pub const SIZE: usize = board::SIZE;

const LINES: usize = 64;

const WORDS: usize = 128;

const JOINED: u8 = 1;

const LEFT: u8 = 2;

// A handover record: its tag, and the length of its value.
const RECORD: u8 = 0x30;

const RECORD_LENGTH: usize = 11;

// A train's last sequence until it is cleared.
const LAST: u32 = 4294967295;

#[derive(Clone, Copy)]
pub enum Refusal {
    // 1: the field is cut (R14.29, as 2 and 3).
    Cut(usize),
    // 2: another tag than 0x30.
    UnknownTag(usize),
    // 3: another length than 11.
    WrongLength(usize),
    // 7: too few bytes to begin a board in (R14.13). Its place is 0.
    BoardShort,
    // 29: no board that calls could have made (R14.28).
    NotABoard,
    // 30: neither a join nor a leave (R14.30).
    KindUnknown,
    // 31: no line is left for this train (R14.31).
    NoFreeLine,
    // 32: not the next sequence (R14.32).
    OutOfTurn,
    // 33: the train cannot have done this next (R14.33).
    DoesNotFollow,
    // 34: the train has not left, or has no line (R14.34).
    NotCleared,
}

// Begins an empty board in the lent bytes, whatever they held.
pub fn begin(t: &mut [u8]) -> Result<(), Refusal>
    ensures { BeginStep t.old result t.new }
{
    if t.len() < SIZE {
        return Err(Refusal::BoardShort);
    }
    for i in 0..WORDS {
        set_word(t, i, 0);
    }
    Ok(())
}

// The record's four numbers, from a value that is whole.
fn values(s: &[u8]) -> Line
    requires { 14 ≤ length s.now }
    ensures { RecordRead s.now result }
{
    let train = u32_at(s, 3);
    let cell = u16_at(s, 7);
    let kind = s[9];
    let sequence = u32_at(s, 10);
    Line {
        train,
        cell,
        kind,
        sequence,
    }
}

// Whether a kind is known.
fn known(kind: u8) -> bool
    ensures { result ≡ Calls.known_kind kind }
{
    if kind == JOINED {
        return true;
    }
    kind == LEFT
}

// Whether a record's sequence is the next one.
fn in_turn(old: Line, r: Line) -> bool
    ensures { result ≡ Calls.in_sequence (rec_line old) (rec_line r) }
{
    if old.sequence >= LAST {
        return false; // nothing follows the last one, so it never wraps
    }
    r.sequence == old.sequence + 1
}

// Whether a record's kind and cell follow.
fn follows(old: Line, r: Line) -> bool
    ensures { result ≡ Calls.follows (rec_line old) (rec_line r) }
{
    if r.kind == LEFT {
        if old.kind == JOINED {
            return r.cell == old.cell;
        }
        return false;
    }
    old.kind == LEFT
}

// The record in the field at the start of lent bytes: refusals 1 (header), 2, 3, 1 (value).
fn read(s: &[u8]) -> Result<Line, Refusal>
    ensures { ReadingIs result s.now }
{
    match field_at(s, 0) {
        Field::Nothing => Err(Refusal::Cut(0)),
        Field::Cut => Err(Refusal::Cut(0)),
        Field::Header {
            tag,
            value: _,
            length,
        } => {
            if tag != RECORD {
                return Err(Refusal::UnknownTag(0));
            }
            if length != RECORD_LENGTH {
                return Err(Refusal::WrongLength(0));
            }
            if !fits(s, 3, RECORD_LENGTH) {
                return Err(Refusal::Cut(0));
            }
            Ok(values(s))
        }
    }
}

// A train's first record: refusals 31 and 33.
fn enter_first(t: &mut [u8], r: Line) -> Result<u8, Refusal>
    requires { ShowsBoard t.old (board_of t.old) × InField (rec_line r) × (Calls.known_kind r.kind ≡ true) × Found (is_of r.train) (board_of t.old) 64 64 }
    ensures { BoardStep (Calls.enter_record (rec_line r)) t.old result t.new }
{
    let Some(k) = lowest(t) else {
        return Err(Refusal::NoFreeLine);
    };
    if r.kind != JOINED {
        return Err(Refusal::DoesNotFollow);
    }
    set_line(t, k, r);
    Ok(k as u8)
}

// A record of a train that stands on line `k`: refusals 32 and 33.
fn enter_later(t: &mut [u8], r: Line, k: usize) -> Result<u8, Refusal>
    requires { ShowsBoard t.old (board_of t.old) × InField (rec_line r) × (Calls.known_kind r.kind ≡ true) × Found (is_of r.train) (board_of t.old) 64 k × (k < 64) }
    ensures { BoardStep (Calls.enter_record (rec_line r)) t.old result t.new }
{
    let old = line_at(t, k);
    if !in_turn(old, r) {
        return Err(Refusal::OutOfTurn);
    }
    if !follows(old, r) {
        return Err(Refusal::DoesNotFollow);
    }
    let next = changed(old, r.cell, r.kind, r.sequence);
    set_line(t, k, next);
    Ok(k as u8)
}

// A record, on a board: refusals 30 to 33.
fn enter(t: &mut [u8], r: Line) -> Result<u8, Refusal>
    requires { ShowsBoard t.old (board_of t.old) × InField (rec_line r) }
    ensures { BoardStep (Calls.enter_record (rec_line r)) t.old result t.new }
{
    if !known(r.kind) {
        return Err(Refusal::KindUnknown);
    }
    match find(t, r.train, LINES) {
        None => enter_first(t, r),
        Some(k) => enter_later(t, r, k),
    }
}

// Enters the handover record of a field, the one in front (R11.6), and answers the line that was changed.
pub fn record(t: &mut [u8], field: &[u8]) -> Result<u8, Refusal>
    ensures { RecordStep field.now t.old result t.new }
{
    if !sound(t) {
        return Err(Refusal::NotABoard);
    }
    let r = read(field)?;
    enter(t, r)
}

// R11.12: frees the line of a train that has left, and answers which it is.
pub fn clear(t: &mut [u8], train: u32) -> Result<u8, Refusal>
    ensures { BoardStep (Calls.clear train) t.old result t.new }
{
    if !sound(t) {
        return Err(Refusal::NotABoard);
    }
    let Some(k) = find(t, train, LINES) else {
        return Err(Refusal::NotCleared);
    };
    let l = line_at(t, k);
    if l.kind != LEFT {
        return Err(Refusal::NotCleared);
    }
    let free = Line {
        train: 0,
        cell: 0,
        kind: 0,
        sequence: 0,
    };
    set_line(t, k, free);
    Ok(k as u8)
}

// What stands on a line, if anything does.
pub fn line(t: &[u8], at: u8) -> Result<Option<Line>, Refusal>
    ensures { LineStep at t.now result }
{
    if !sound(t) {
        return Err(Refusal::NotABoard);
    }
    let k = at as usize;
    if k >= LINES {
        return Ok(None);
    }
    let l = line_at(t, k);
    if l.kind == 0 {
        return Ok(None);
    }
    Ok(Some(l))
}

// A refusal's number (R11.14).
impl From<Refusal> for u64 {
    ghost from_gives = { λ x n. n ≡ (board_listed x).0 };

    fn from(x: Refusal) -> u64 {
        match x {
            Refusal::Cut(_) => 1,
            Refusal::UnknownTag(_) => 2,
            Refusal::WrongLength(_) => 3,
            Refusal::BoardShort => 7,
            Refusal::NotABoard => 29,
            Refusal::KindUnknown => 30,
            Refusal::NoFreeLine => 31,
            Refusal::OutOfTurn => 32,
            Refusal::DoesNotFollow => 33,
            Refusal::NotCleared => 34,
        }
    }
}
