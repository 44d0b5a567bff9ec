// The public calls for hosts in C and Rust: exported functions on numbers and byte slices (R13.9). include/zenfrosta.h documents each.
//
// One rule for every answer (R13.1 to R13.3, specs/Crossing.antt): the result is 0, or the number of the refusal; values stand in a lent buffer of at least 32
// bytes as four 64-bit words, low byte first. A shorter buffer gives 255, and nothing is done. specs/Heard.antt says what lists of these calls come to for a
// host.
//
// The contracts are of slices, as Rust lends them: no area that is written overlaps another one of the call. Safe Rust cannot lend otherwise; a host in C can,
// and nothing here finds it out, so include/zenfrosta.h asks it of the host.
#![tactic(auto)]

ghost use Rattle.std.specs.Prelude.{◌≡◌, ◌≤◌, length};
ghost use Rattle.std.specs.Int.{w64};
ghost use Rattle.std.proofs.Common.{of_z};
ghost use Rattle.rules.specs.Calls as Calls;
ghost use Rattle.rules.specs.Reads as Reads;
ghost use Rattle.table.specs.Layout.{table_size};
ghost use Rattle.zenfrosta.specs.Crossing.{four, code, values, refusal_words, Spoken, CrossesCall, CrossesMaking};

pub mod boards;
pub mod halts;
pub mod offers;
pub mod old;
pub mod plans;
pub mod runs;
pub mod sheets;
pub mod version;
pub mod views;

use rules::{Answer, Record, Refusal};
use units::Bytes;
use words::set_word;

// The four words of an answer.
#[derive(Clone, Copy)]
pub struct Four {
    pub a: u64,
    pub b: u64,
    pub c: u64,
    pub d: u64,
}

// A signed number in two's complement.
fn complement(z: i64) -> u64
    ensures { result ≡ of_z w64 z }
{
    z.cast_unsigned()
}

fn one(a: u64) -> Four
    ensures { result ≡ four a 0 0 0 }
{
    Four {
        a,
        b: 0,
        c: 0,
        d: 0,
    }
}

// The words that tell a refusal: its place and 1, or 0 and 0 where the list has none.
fn refusal_words(x: Refusal) -> Four
    ensures { result ≡ refusal_words (Reads.place_of x) }
{
    match lines::place_of(x) {
        Some(p) => Four {
            a: p as u64,
            b: 1,
            c: 0,
            d: 0,
        },
        None => one(0),
    }
}

// The words that tell a record: lane, mark, length and train.
fn record_words(r: Record) -> Four
    ensures { result ≡ four r.lane r.mark r.length.0 r.train }
{
    Four {
        a: r.lane as u64,
        b: r.mark as u64,
        c: r.length.0,
        d: r.train as u64,
    }
}

// The words that tell an answer that is no refusal.
fn words_of(x: Answer) -> Four
    ensures { result ≡ values (Reads.answer x) }
{
    match x {
        Answer::Accepted(n) => one(n),
        Answer::Taken(r) => record_words(r),
        Answer::Seen(r) => record_words(r),
        Answer::Sets(w) => Four {
            a: w.er,
            b: w.ir,
            c: w.eb,
            d: w.ib,
        },
        Answer::Lag(z) => one(complement(z)),
        Answer::Restarted => one(0),
    }
}

// Writes the four words.
fn speak(out: &mut [u8], w: Four)
    requires { 32 ≤ length out.old }
    ensures { Spoken out.old w out.new }
{
    set_word(out, 0, w.a);
    set_word(out, 1, w.b);
    set_word(out, 2, w.c);
    set_word(out, 3, w.d);
}

// Tells a refusal: its place into the buffer, and its number.
fn refuse(out: &mut [u8], x: Refusal) -> u64
    requires { 32 ≤ length out.old }
    ensures { (result ≡ Reads.number x) × Spoken out.old (refusal_words (Reads.place_of x)) out.new }
{
    speak(out, refusal_words(x));
    lines::number(x)
}

// Tells an answer: its words into the buffer, and its code.
fn tell(out: &mut [u8], x: Result<Answer, Refusal>) -> u64
    requires { 32 ≤ length out.old }
    ensures { (result ≡ code (Reads.reads x)) × Spoken out.old (values (Reads.reads x)) out.new }
{
    match x {
        Ok(a) => {
            speak(out, words_of(a));
            0
        }
        Err(f) => refuse(out, f),
    }
}

// The fixed size of a table, in bytes.
#[unsafe(no_mangle)]
pub extern "C" fn zf_table_size() -> u64
    ensures { result ≡ table_size }
{
    scheduler::SIZE as u64
}

// Makes the fresh table of a setup in the lent bytes: the number of lanes, or a refusal with its place.
#[unsafe(no_mangle)]
pub extern "C" fn zf_make(setup: &[u8], table: &mut [u8], out: &mut [u8]) -> u64
    ensures { CrossesMaking setup.now table.old table.new out.old result out.new }
{
    if out.len() < 32 {
        return 255;
    }
    match scheduler::make(setup, table) {
        Ok(n) => {
            speak(out, one(n as u64));
            0
        }
        Err(x) => refuse(out, x),
    }
}

// Puts a record into a lane: of train 0, in a shared lane too.
#[unsafe(no_mangle)]
pub extern "C" fn zf_put(table: &mut [u8], lane: u8, mark: u32, size: u64, out: &mut [u8]) -> u64
    ensures { CrossesCall (Calls.put lane 0 mark size) table.old table.new out.old result out.new }
{
    if out.len() < 32 {
        return 255;
    }
    tell(out, scheduler::put(table, lane, 0, mark, Bytes(size)))
}

// Puts a record of a train into a lane.
#[unsafe(no_mangle)]
pub extern "C" fn zf_put_train(
    table: &mut [u8],
    lane: u8,
    train: u8,
    mark: u32,
    size: u64,
    out: &mut [u8],
) -> u64
    ensures { CrossesCall (Calls.put lane train mark size) table.old table.new out.old result out.new }
{
    if out.len() < 32 {
        return 255;
    }
    tell(out, scheduler::put(table, lane, train, mark, Bytes(size)))
}

// Takes the next record.
#[unsafe(no_mangle)]
pub extern "C" fn zf_take(table: &mut [u8], out: &mut [u8]) -> u64
    ensures { CrossesCall Calls.take table.old table.new out.old result out.new }
{
    // First: a record that is taken and cannot be told is lost.
    if out.len() < 32 {
        return 255;
    }
    tell(out, scheduler::take(table))
}

// Looks at the record that take would hand out.
#[unsafe(no_mangle)]
pub extern "C" fn zf_look(table: &[u8], out: &mut [u8]) -> u64
    ensures { CrossesCall Calls.look table.now table.now out.old result out.new }
{
    if out.len() < 32 {
        return 255;
    }
    tell(out, scheduler::look(table))
}

// The four words of the group sets.
#[unsafe(no_mangle)]
pub extern "C" fn zf_sets(table: &[u8], out: &mut [u8]) -> u64
    ensures { CrossesCall Calls.sets table.now table.now out.old result out.new }
{
    if out.len() < 32 {
        return 255;
    }
    tell(out, scheduler::sets(table))
}

// How far the clock is ahead of a lane.
#[unsafe(no_mangle)]
pub extern "C" fn zf_lag(table: &[u8], lane: u8, out: &mut [u8]) -> u64
    ensures { CrossesCall (Calls.lag lane) table.now table.now out.old result out.new }
{
    if out.len() < 32 {
        return 255;
    }
    tell(out, scheduler::lag(table, lane))
}

// Begins anew with the table's own setup (R3.19), once no record is held.
#[unsafe(no_mangle)]
pub extern "C" fn zf_restart(table: &mut [u8], out: &mut [u8]) -> u64
    ensures { CrossesCall Calls.restart table.old table.new out.old result out.new }
{
    if out.len() < 32 {
        return 255;
    }
    tell(out, scheduler::restart(table))
}
