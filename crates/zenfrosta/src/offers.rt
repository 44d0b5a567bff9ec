// Settings pages offered to a table, exported (R13.9): the call of crate scheduler. Answers cross as those of lib.rt do (specs/Crossing.antt).
ghost use Rattle.std.specs.Prelude.{◌≡◌, ◌≤◌, length, Ok, Err};
ghost use Rattle.scheduler.specs.Step.{offering};
ghost use Rattle.zenfrosta.specs.Crossing.{offer_code, offer_values, Spoken, CrossesOffer};

use crate::{Four, one, refuse, speak};
use scheduler::{NotTaken, Offered};

// The words of a page that is taken: 0 where it is in force, 1 where it waits.
fn offered_words(x: Offered) -> Four
    ensures { result ≡ offer_values (offering (Ok x)) }
{
    match x {
        Offered::InForce => one(0),
        Offered::Waits => one(1),
    }
}

// Tells why a page is not taken.
fn refuse_offer(out: &mut [u8], x: NotTaken) -> u64
    requires { 32 ≤ length out.old }
    ensures { (result ≡ offer_code (offering (Err x))) × Spoken out.old (offer_values (offering (Err x))) out.new }
{
    match x {
        NotTaken::Old => {
            speak(out, one(0));
            60
        }
        NotTaken::Refused(f) => refuse(out, f),
    }
}

// Tells the answer to an offer.
fn tell_offer(out: &mut [u8], x: Result<Offered, NotTaken>) -> u64
    requires { 32 ≤ length out.old }
    ensures { (result ≡ offer_code (offering x)) × Spoken out.old (offer_values (offering x)) out.new }
{
    match x {
        Ok(o) => {
            speak(out, offered_words(o));
            0
        }
        Err(f) => refuse_offer(out, f),
    }
}

// Offers a settings page: word 0 is 0 where it is in force, 1 where it waits.
#[unsafe(no_mangle)]
pub extern "C" fn zf_offer(table: &mut [u8], page: &[u8], out: &mut [u8]) -> u64
    ensures { CrossesOffer page.now table.old table.new out.old result out.new }
{
    // First: a page that is in force and cannot be told so would be offered again.
    if out.len() < 32 {
        return 255;
    }
    tell_offer(out, scheduler::offer(table, page))
}
