// The good-table test's part for the slot lists: whether the lists, the words of lists and the groups' starts agree with the lanes' own words.
//
// It walks each group that has lanes, each of its lists that has, and each lane there, and asks of a lane: was it met before, is it of this group, does
// its S lie in this list's slot. At the end the lanes met must be those that hold records. So it reads each place once, whatever the bytes hold.
#![tactic(auto)]

ghost use Rattle.std.specs.Prelude.{◌≡◌, ◌/◌, ◌^◌, ◌<◌, ◌≤◌};
ghost use Rattle.rings.specs.Rings.{Long};
ghost use Rattle.slot_lists.specs.Lists.{back_at};
ghost use Rattle.lane_test.specs.Says.{Says};
ghost use Rattle.lists_test.specs.Stored.{FitsSlot, RingSays, GroupSays, ListsStored};

use rings::{entry, held};
use slot_lists::{BACK, GROUPS, MAPS, STARTS, ring_number};
use table::{LANES, row};
use words::{SetBits, word};

// 2^32: a word of lists, or of groups, is below it; and 2^16: no group is below 16.
const END: u64 = 4294967296;

const LOW: u64 = 65536;

// What was taken off the clock is a multiple of 2^31, kept below 2^36.
const BACK_UNIT: u64 = 2147483648;

const BACK_END: u64 = 68719476736;

// Whether lane `k`, by its own words, is of group `g` and has its clock word in slot `at`; `base` slots of the group were taken off the clock.
fn stands(t: &[u8], k: usize, g: u32, base: u64, at: u64) -> bool
    requires { Long t.now × (k < 64) × (16 ≤ g) × (g ≤ 31) × (base ≡ back_at t.now / 2 ^ g) × (base < 2 ^ 36) }
    ensures { Says result (FitsSlot t.now k g at) }
{
    let l = row(t, k);
    if l.group != g {
        return false;
    }
    if (l.time.0 >> g) + base != at {
        return false;
    }
    true
}

// The lanes met once those of ring `i`, which keeps a list of group `g` for slot `at`, are added to those met before; none where one may not stand there.
fn ring_met(t: &[u8], i: usize, g: u32, base: u64, at: u64, before: u64) -> Option<u64>
    requires { Long t.now × (i < 512) × (16 ≤ g) × (g ≤ 31) × (base ≡ back_at t.now / 2 ^ g) × (base < 2 ^ 36) }
    ensures { RingSays t.now i g at before result }
{
    let n = held(t, i);
    if n == 0 {
        return None;
    }
    let mut met = before;
    for j in 0..n {
        let k = entry(t, i, j);
        if k >= LANES {
            return None;
        }
        if (met >> (k as u32)) % 2 == 1 {
            return None;
        }
        let fits = stands(t, k, g, base, at);
        if !fits {
            return None;
        }
        met += 1u64 << (k as u32);
    }
    Some(met)
}

// The lanes of group `g`, which has lanes; `back` was taken off the clock.
fn group_met(t: &[u8], g: u32, back: u64, before: u64) -> Option<u64>
    requires { Long t.now × (16 ≤ g) × (g ≤ 31) × (back ≡ back_at t.now) × (back < 2 ^ 36) }
    ensures { GroupSays t.now g before result }
{
    let map = word(t, MAPS + (g as usize));
    let start = word(t, STARTS + (g as usize));
    if map >= END {
        return None;
    }
    let own = start >> g;
    if own << g != start {
        return None;
    }
    let base = back >> g;
    let slot = own + base;
    let first = slot % 32;
    if (map >> (first as u32)) % 2 == 0 {
        return None;
    }
    let mut met = before;
    for b in SetBits(map) {
        let at = slot + ((b as u64) + 32 - first) % 32;
        met = ring_met(t, ring_number(g, b), g, base, at, met)?;
    }
    Some(met)
}

// Whether what is stored of the slot lists agrees with the lanes' own words, `lanes` being the word of those that hold records.
pub fn lists_good(t: &[u8], lanes: u64) -> bool
    requires { Long t.now }
    ensures { Says result (ListsStored t.now lanes) }
{
    let back = word(t, BACK);
    if back % BACK_UNIT != 0 {
        return false;
    }
    if back >= BACK_END {
        return false;
    }
    let groups = word(t, GROUPS);
    // no lists: an idle table is done
    if groups == 0 {
        return lanes == 0;
    }
    if groups % LOW != 0 {
        return false;
    }
    if groups >= END {
        return false;
    }
    let mut met: u64 = 0;
    for g in SetBits(groups) {
        let Some(more) = group_met(t, g, back, met) else {
            return false;
        };
        met = more;
    }
    if met != lanes {
        return false;
    }
    true
}
