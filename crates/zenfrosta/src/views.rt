// A table shown to its host (R17.6 to R17.10): the calls of crate show, exported. Answers cross as those of lib.rt do (specs/Views.antt).
ghost use Rattle.std.specs.Prelude.{◌≡◌, ◌≤◌, length};
ghost use Rattle.plan_area.specs.Area.{shared_part};
ghost use Rattle.show.specs.Views as Views;
ghost use Rattle.show.specs.Shows.{view_of, view_reply};
ghost use Rattle.zenfrosta.specs.Crossing.{Spoken};
ghost use Rattle.zenfrosta.specs.Views.{view_code, view_values, CrossesView};

use crate::{Four, one, record_words, refuse, speak};
use rules::Refusal;
use show::Shown;

// What a shared lane's word has more, as in a plan area.
fn shared_part(shared: bool) -> u64
    ensures { (result ≡ shared_part shared) × (result ≤ 4294967296) }
{
    if shared { 4294967296 } else { 0 }
}

// The words of what is shown.
fn shown_words(x: Shown) -> Four
    ensures { result ≡ view_values (view_of x) }
{
    match x {
        Shown::Clock(v) => one(v.0),
        Shown::Setting(g) => Four {
            a: g.weight,
            b: g.longest.0,
            c: g.framing.0,
            d: (g.group as u64) + shared_part(g.shared),
        },
        Shown::Backlog(q) => Four {
            a: q.count,
            b: q.time.0,
            c: 0,
            d: 0,
        },
        Shown::Record(r) => record_words(r),
        Shown::Edition(e) => Four {
            a: e.last,
            b: e.waiting,
            c: 0,
            d: 0,
        },
        Shown::Wait(w) => Four {
            a: w.asked,
            b: w.tight,
            c: 0,
            d: 0,
        },
    }
}

// Tells what a table shows.
fn tell_view(out: &mut [u8], x: Result<Shown, Refusal>) -> u64
    requires { 32 ≤ length out.old }
    ensures { (result ≡ view_code (view_reply x)) × Spoken out.old (view_values (view_reply x)) out.new }
{
    match x {
        Ok(s) => {
            speak(out, shown_words(s));
            0
        }
        Err(f) => refuse(out, f),
    }
}

// The clock of a table.
#[unsafe(no_mangle)]
pub extern "C" fn zf_clock(table: &[u8], out: &mut [u8]) -> u64
    ensures { CrossesView Views.clock table.now out.old result out.new }
{
    if out.len() < 32 {
        return 255;
    }
    tell_view(out, show::clock(table))
}

// What the setup gives a lane.
#[unsafe(no_mangle)]
pub extern "C" fn zf_lane(table: &[u8], lane: u8, out: &mut [u8]) -> u64
    ensures { CrossesView (Views.lane lane) table.now out.old result out.new }
{
    if out.len() < 32 {
        return 255;
    }
    tell_view(out, show::lane(table, lane))
}

// How many records wait in a lane, and its time.
#[unsafe(no_mangle)]
pub extern "C" fn zf_backlog(table: &[u8], lane: u8, out: &mut [u8]) -> u64
    ensures { CrossesView (Views.backlog lane) table.now out.old result out.new }
{
    if out.len() < 32 {
        return 255;
    }
    tell_view(out, show::backlog(table, lane))
}

// The record of a lane that has `i` before it: of train 0, in a shared lane too.
#[unsafe(no_mangle)]
pub extern "C" fn zf_record(table: &[u8], lane: u8, i: u64, out: &mut [u8]) -> u64
    ensures { CrossesView (Views.waits lane 0 i) table.now out.old result out.new }
{
    if out.len() < 32 {
        return 255;
    }
    tell_view(out, show::record(table, lane, 0, i))
}

// The record of a train of a lane that has `i` of its train before it.
#[unsafe(no_mangle)]
pub extern "C" fn zf_train_record(table: &[u8], lane: u8, train: u8, i: u64, out: &mut [u8]) -> u64
    ensures { CrossesView (Views.waits lane train i) table.now out.old result out.new }
{
    if out.len() < 32 {
        return 255;
    }
    tell_view(out, show::record(table, lane, train, i))
}

// The edition last taken, and that of the page that waits.
#[unsafe(no_mangle)]
// R17.9
pub extern "C" fn zf_edition(table: &[u8], out: &mut [u8]) -> u64
    ensures { CrossesView Views.edition table.now out.old result out.new }
{
    if out.len() < 32 {
        return 255;
    }
    tell_view(out, show::edition(table))
}

// How long a record can wait at worst that was put to a lane and reported `ahead`.
#[unsafe(no_mangle)]
// R17.10
pub extern "C" fn zf_wait(table: &[u8], lane: u8, ahead: u64, out: &mut [u8]) -> u64
    ensures { CrossesView (Views.wait lane ahead) table.now out.old result out.new }
{
    if out.len() < 32 {
        return 255;
    }
    tell_view(out, show::wait(table, lane, ahead))
}
