// The desk's board for hosts: the journal's calls, exported (R13.7, R13.9). Answers cross as those of lib.rt do (specs/Board.antt).
ghost use Rattle.std.specs.Prelude.{◌≡◌, ◌≤◌, length, Ok};
ghost use Rattle.journal.specs.Reads.{plain_told, shown, beginning, refused_by};
ghost use Rattle.journal.specs.Step.{board_size};
ghost use Rattle.zenfrosta.specs.Crossing.{Spoken};
ghost use Rattle.zenfrosta.specs.Board.{board_code, board_values, CrossesBegin, CrossesRecord, CrossesClear, CrossesLine};

use crate::{Four, one, speak};
use desk_line::Line;
use journal::Refusal;

// A place, and 1: there is one.
fn placed(place: u64) -> Four
    ensures { result ≡ record { a = place; b = 1; c = 0; d = 0 } }
{
    Four {
        a: place,
        b: 1,
        c: 0,
        d: 0,
    }
}

// The words of a refusal.
fn refusal_words(x: Refusal) -> Four
    ensures { result ≡ board_values (refused_by x) }
{
    match x {
        Refusal::Cut(p) => placed(p as u64),
        Refusal::UnknownTag(p) => placed(p as u64),
        Refusal::WrongLength(p) => placed(p as u64),
        Refusal::BoardShort => placed(0),
        Refusal::NotABoard => one(0),
        Refusal::KindUnknown => one(0),
        Refusal::NoFreeLine => one(0),
        Refusal::OutOfTurn => one(0),
        Refusal::DoesNotFollow => one(0),
        Refusal::NotCleared => one(0),
    }
}

// Tells a refusal.
fn refuse(out: &mut [u8], x: Refusal) -> u64
    requires { 32 ≤ length out.old }
    ensures { (result ≡ board_code (refused_by x)) × Spoken out.old (board_values (refused_by x)) out.new }
{
    let w = refusal_words(x);
    speak(out, w);
    u64::from(x)
}

// Tells the line that record or clear changed.
fn tell_line(out: &mut [u8], x: Result<u8, Refusal>) -> u64
    requires { 32 ≤ length out.old }
    ensures { (result ≡ board_code (plain_told x)) × Spoken out.old (board_values (plain_told x)) out.new }
{
    match x {
        Ok(k) => {
            speak(out, one(k as u64));
            0
        }
        Err(f) => refuse(out, f),
    }
}

// The words of what stands on a line, all 0 where it is free.
fn line_words(x: Option<Line>) -> Four
    ensures { result ≡ board_values (shown (Ok x)) }
{
    match x {
        None => one(0),
        Some(l) => Four {
            a: l.kind as u64,
            b: l.train as u64,
            c: l.cell as u64,
            d: l.sequence as u64,
        },
    }
}

// Tells what stands on a line.
fn tell_shown(out: &mut [u8], x: Result<Option<Line>, Refusal>) -> u64
    requires { 32 ≤ length out.old }
    ensures { (result ≡ board_code (shown x)) × Spoken out.old (board_values (shown x)) out.new }
{
    match x {
        Ok(l) => {
            speak(out, line_words(l));
            0
        }
        Err(f) => refuse(out, f),
    }
}

// Tells how beginning a board went.
fn tell_begun(out: &mut [u8], x: Result<(), Refusal>) -> u64
    requires { 32 ≤ length out.old }
    ensures { (result ≡ board_code (beginning x)) × Spoken out.old (board_values (beginning x)) out.new }
{
    match x {
        Ok(()) => {
            speak(out, one(0));
            0
        }
        Err(f) => refuse(out, f),
    }
}

// The fixed size of a board, in bytes.
#[unsafe(no_mangle)]
pub extern "C" fn zf_board_size() -> u64
    ensures { result ≡ board_size }
{
    journal::SIZE as u64
}

// Begins an empty board in the lent bytes.
#[unsafe(no_mangle)]
pub extern "C" fn zf_board_begin(board: &mut [u8], out: &mut [u8]) -> u64
    ensures { CrossesBegin board.old board.new out.old result out.new }
{
    if out.len() < 32 {
        return 255;
    }
    tell_begun(out, journal::begin(board))
}

// Enters the handover record of a field.
#[unsafe(no_mangle)]
pub extern "C" fn zf_board_record(board: &mut [u8], field: &[u8], out: &mut [u8]) -> u64
    ensures { CrossesRecord field.now board.old board.new out.old result out.new }
{
    if out.len() < 32 {
        return 255;
    }
    tell_line(out, journal::record(board, field))
}

// Frees the line of a train that has left (R11.12).
#[unsafe(no_mangle)]
pub extern "C" fn zf_board_clear(board: &mut [u8], train: u32, out: &mut [u8]) -> u64
    ensures { CrossesClear train board.old board.new out.old result out.new }
{
    if out.len() < 32 {
        return 255;
    }
    tell_line(out, journal::clear(board, train))
}

// What stands on a line.
#[unsafe(no_mangle)]
pub extern "C" fn zf_board_line(board: &[u8], at: u8, out: &mut [u8]) -> u64
    ensures { CrossesLine at board.now out.old result out.new }
{
    if out.len() < 32 {
        return 255;
    }
    tell_shown(out, journal::line(board, at))
}
