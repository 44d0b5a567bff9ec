// Which lane is served next, and the four words of the group sets, on a table known to be good (R3.10, R4.4).
//
// Both go by the groups' stored starts, at most sixteen, whatever the number of lanes. The group of least finish among those whose start V has reached is
// served next (crate groups), and in it the lane that stands first in the slot list of the group's start: filing/proofs/Choose.antt says that this is the
// plain choice.
//
// Units: starts and finishes are `Clock` or its number; bit i of a word stands for group i.
#![tactic(auto)]

ghost use Rattle.std.specs.Prelude.{◌≡◌, ◌≤◌, ◌<◌, ◌^◌};
ghost use Rattle.table.specs.Means.{meant};
ghost use Rattle.choice.specs.Known.{Known, ChoiceIs};
ghost use Rattle.choice.specs.Sweep.{sorted_into, swept, BitFits, AreWords};

use groups::{NEVER, next_group};
use rules::SetWords;
use slot_lists::{BACK, GROUPS, MAPS, STARTS, first, list_number};
use table::clock;
use units::{Clock, rounded_finish};
use words::{SetBits, word};

// The four words so far, and the least finish of the eligible groups met; `NEVER` where there is none.
#[derive(Clone, Copy)]
pub struct Sweep {
    pub words: SetWords,
    pub least: Clock,
}

// A lane that stands first in the slot list of its group's start.
#[derive(Clone, Copy)]
pub struct Place {
    pub lane: usize,
    pub group: u32,
    pub start: u64,
}

// A group's bit in a set word.
fn group_bit(i: u32) -> u64
    requires { i ≤ 31 }
    ensures { result ≡ 2 ^ i }
{
    1u64 << i
}

// Puts a group's bit into one of the four words.
fn sorted(w: SetWords, bit: u64, eligible: bool, blocked: bool) -> SetWords
    requires { BitFits w bit }
    ensures { result ≡ sorted_into w bit eligible blocked }
{
    let mut next = w;
    if eligible {
        if blocked {
            next.eb = w.eb + bit;
        } else {
            next.er = w.er + bit;
        }
    } else if blocked {
        next.ib = w.ib + bit;
    } else {
        next.ir = w.ir + bit;
    }
    next
}

// Group `i`, whose start is `start`, at clock `v`.
fn sweep_group(start: Clock, v: Clock, i: u32, a: Sweep) -> Sweep
    requires { (start.0 < 2 ^ 63) × (i ≤ 31) × BitFits a.words (2 ^ i) }
    ensures { result ≡ swept start.0 v.0 i a }
{
    let finish = rounded_finish(start, i);
    let eligible = start <= v;
    let so_far = a.least;
    let words = sorted(a.words, group_bit(i), eligible, so_far < finish);
    if eligible {
        return Sweep {
            words,
            least: finish.min(so_far),
        };
    }
    Sweep {
        words,
        least: so_far,
    }
}

// The four words of the group sets: the groups that hold records, from the highest down, by the set bits of their word.
pub fn set_words(t: &[u8]) -> SetWords
    requires { Known t.now }
    ensures { AreWords (meant t.now) result }
{
    let v = clock(t);
    let mut a = Sweep {
        words: SetWords {
            er: 0,
            ir: 0,
            eb: 0,
            ib: 0,
        },
        least: Clock(NEVER),
    };
    for i in SetBits(word(t, GROUPS)).rev() {
        let start = word(t, STARTS + (i as usize));
        a = sweep_group(Clock(start), v, i, a);
    }
    a.words
}

// The lane that take serves and look sees; none where no lane holds a record.
pub fn chosen(t: &[u8]) -> Option<Place>
    requires { Known t.now }
    ensures { ChoiceIs t.now result }
{
    let v = clock(t);
    let f = next_group(t, v.0);
    if f.finish == NEVER {
        return None;
    }
    let group = f.group;
    let start = f.finish - (2u64 << group);
    let list = list_number(start, word(t, BACK), group);
    let lane = first(t, group, list, word(t, MAPS + (group as usize)));
    Some(Place { lane, group, start })
}
