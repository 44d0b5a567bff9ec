// The reader of settings pages: an edition, a whole setup, and between the page's own fields any that a newer office may have added.
//
//   parse   one field of a page, taken apart: refusals 1 to 3, in the order 1 (header), 2, 3, 1 (value)
//   lib     the page: 0x40, 0x41, 0x7F, each where it is to stand; the setup inside is read by the one setup reader, `plan::read_setup`
//
// `read_page` takes any bytes. What it answers is `read_page` of specs/Read.antt, and specs/Promises.antt says that exactly the pages of the form are read,
// each as if nothing were skipped in it.
//
// Units: a place is a number of bytes from the page's first byte, a length a number of bytes.
#![tactic(auto)]

ghost use Rattle.std.specs.Prelude.{◌≡◌, true, ◌+◌, ◌^◌, ◌<◌};
ghost use Rattle.rules.specs.Reads.{number, place_of};
ghost use Rattle.plan.specs.Read.{settings};
ghost use Rattle.plan.specs.Accepted.{setup_refusals, among};
ghost use Rattle.page.specs.Read.{page_read, past_skipped, end_at, distance, moved, settings_at, read_page, page_reply};

pub mod parse;

use parse::PageField;
use plan::Plan;
use rules::Refusal;

// A page that was read: the plan of its setup, and its edition.
#[derive(Clone, Copy)]
pub struct Reading {
    pub plan: Plan,
    pub edition: u16,
}

// The place behind the skipped fields that stand from a place on.
fn past_skipped(s: &[u8], at: usize) -> usize
    ensures { result ≡ past_skipped s.now at }
{
    let mut p = at;
    while let Ok((PageField::Skipped, next)) = parse::parsed_field(s, p) {
        p = next;
    }
    p
}

// A refusal of a value's bytes, its place counted from where the value's own are.
fn moved(by: usize, x: Refusal) -> Refusal
    requires { (among setup_refusals (number x) ≡ true) × (by + distance (place_of x) < 2 ^ 64) }
    ensures { (number result ≡ number x) × (place_of result ≡ moved by (place_of x)) }
{
    match x {
        Refusal::Cut(p) => Refusal::Cut(by + p),
        Refusal::UnknownTag(p) => Refusal::UnknownTag(by + p),
        Refusal::WrongLength(p) => Refusal::WrongLength(by + p),
        Refusal::OutOfOrder(p) => Refusal::OutOfOrder(by + p),
        Refusal::WeightsOver(p) => Refusal::WeightsOver(by + p),
        Refusal::FormatOutside(p) => Refusal::FormatOutside(by + p),
        Refusal::LaneOutside(p) => Refusal::LaneOutside(by + p),
        Refusal::WeightOutside(p) => Refusal::WeightOutside(by + p),
        Refusal::LongestOutside(p) => Refusal::LongestOutside(by + p),
        Refusal::FramingOutside(p) => Refusal::FramingOutside(by + p),
        // A setup is refused with none of the others.
        _ => x,
    }
}

// The page's 0x7F, which is to stand here as its last bytes.
fn end_at(s: &[u8], at: usize, edition: u16, plan: Plan) -> Result<Reading, Refusal>
    ensures { page_reply result ≡ end_at s.now at (page_read edition plan.format (settings plan) plan.count) }
{
    let (field, next) = parse::parsed_field(s, at)?;
    let PageField::End = field else {
        return Err(Refusal::OutOfOrder(at));
    };
    if next < s.len() {
        return Err(Refusal::OutOfOrder(next));
    }
    Ok(Reading { plan, edition })
}

// The page from its 0x41 on, which is to stand here. The setup inside ends where its value does.
fn settings_at(s: &[u8], edition: u16, at: usize) -> Result<Reading, Refusal>
    ensures { page_reply result ≡ settings_at s.now edition at }
{
    let (field, next) = parse::parsed_field(s, at)?;
    let PageField::Settings(value, n) = field else {
        return Err(Refusal::OutOfOrder(at));
    };
    let end = value + n;
    match plan::read_setup(&s[value..end]) {
        Ok(inner) => end_at(s, past_skipped(s, next), edition, inner.plan),
        Err(x) => Err(moved(value, x)),
    }
}

// A page that is the whole input.
pub fn read_page(s: &[u8]) -> Result<Reading, Refusal>
    ensures { page_reply result ≡ read_page s.now }
{
    let (field, next) = parse::parsed_field(s, 0)?;
    let PageField::Edition(edition) = field else {
        return Err(Refusal::OutOfOrder(0));
    };
    settings_at(s, edition, past_skipped(s, next))
}
