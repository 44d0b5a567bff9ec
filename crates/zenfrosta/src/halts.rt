// The small halt, exported (R20.6). Its answers cross as those of lib.rt do (specs/Halts.antt).
ghost use Rattle.std.specs.Prelude.{◌≡◌, ◌≤◌, length, Err};
ghost use Rattle.rules.specs.Calls as Calls;
ghost use Rattle.halt.specs.Halt.{halt_reply};
ghost use Rattle.zenfrosta.specs.Crossing.{make_code, make_values, Spoken};
ghost use Rattle.zenfrosta.specs.Halts.{CrossesHalt, CrossesHaltMaking};

use crate::{one, refuse, speak, tell};
use halt::NotMade;
use units::Bytes;

// 90: a good setup that is not the halt's.
const NOT_A_HALT: u64 = 90;

// Tells why no table was made.
fn refuse_making(out: &mut [u8], x: NotMade) -> u64
    requires { 32 ≤ length out.old }
    ensures { (result ≡ make_code (halt_reply (Err x))) × Spoken out.old (make_values (halt_reply (Err x))) out.new }
{
    match x {
        NotMade::NotAHalt => {
            speak(out, one(0));
            NOT_A_HALT
        }
        NotMade::Refused(f) => refuse(out, f),
    }
}

// Tells how making went.
fn tell_made(out: &mut [u8], x: Result<usize, NotMade>) -> u64
    requires { 32 ≤ length out.old }
    ensures { (result ≡ make_code (halt_reply x)) × Spoken out.old (make_values (halt_reply x)) out.new }
{
    match x {
        Ok(n) => {
            speak(out, one(n as u64));
            0
        }
        Err(f) => refuse_making(out, f),
    }
}

// Makes the halt's fresh table in the lent bytes: the number of lanes, or a refusal with its place.
#[unsafe(no_mangle)]
pub extern "C" fn zf_halt_make(setup: &[u8], table: &mut [u8], out: &mut [u8]) -> u64
    ensures { CrossesHaltMaking setup.now table.old table.new out.old result out.new }
{
    if out.len() < 32 {
        return 255;
    }
    tell_made(out, halt::make(setup, table))
}

// Puts a record into a lane.
#[unsafe(no_mangle)]
pub extern "C" fn zf_halt_put(
    table: &mut [u8],
    lane: u8,
    mark: u32,
    size: u64,
    out: &mut [u8],
) -> u64
    ensures { CrossesHalt (Calls.put lane 0 mark size) table.old table.new out.old result out.new }
{
    if out.len() < 32 {
        return 255;
    }
    tell(out, halt::put(table, lane, mark, Bytes(size)))
}

// Takes the next record.
#[unsafe(no_mangle)]
pub extern "C" fn zf_halt_take(table: &mut [u8], out: &mut [u8]) -> u64
    ensures { CrossesHalt Calls.take table.old table.new out.old result out.new }
{
    if out.len() < 32 {
        return 255;
    }
    tell(out, halt::take(table))
}

// Looks at the record that take would hand out.
#[unsafe(no_mangle)]
pub extern "C" fn zf_halt_look(table: &[u8], out: &mut [u8]) -> u64
    ensures { CrossesHalt Calls.look table.now table.now out.old result out.new }
{
    if out.len() < 32 {
        return 255;
    }
    tell(out, halt::look(table))
}

// The four words of the group sets.
#[unsafe(no_mangle)]
pub extern "C" fn zf_halt_sets(table: &[u8], out: &mut [u8]) -> u64
    ensures { CrossesHalt Calls.sets table.now table.now out.old result out.new }
{
    if out.len() < 32 {
        return 255;
    }
    tell(out, halt::sets(table))
}

// How far the clock is ahead of a lane.
#[unsafe(no_mangle)]
pub extern "C" fn zf_halt_lag(table: &[u8], lane: u8, out: &mut [u8]) -> u64
    ensures { CrossesHalt (Calls.lag lane) table.now table.now out.old result out.new }
{
    if out.len() < 32 {
        return 255;
    }
    tell(out, halt::lag(table, lane))
}

// Begins anew, once no record is held.
#[unsafe(no_mangle)]
pub extern "C" fn zf_halt_restart(table: &mut [u8], out: &mut [u8]) -> u64
    ensures { CrossesHalt Calls.restart table.old table.new out.old result out.new }
{
    if out.len() < 32 {
        return 255;
    }
    tell(out, halt::restart(table))
}
