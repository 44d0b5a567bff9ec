// The slot lists of a table. QFQ keeps the lanes of a group that hold records in lists by the slot in which their S lies; here each of the sixteen groups
// has 32 lists, used in turn, and each list is first in, first out.
//
// A list is a ring of `rings`. For each group a word marks which of its lists have lanes, and another holds the group's start; one word marks the groups
// that have lanes. The ring of a list that is not marked, and the words of a group that is not marked, mean nothing and are never read.
//
// A change goes in two steps, so that each word is read and written once: lists are changed with the group's word of lists at hand, then the group's
// words are stored. These are inner functions: a `requires` says what the crates above keep.
#![tactic(auto)]

ghost use Rattle.std.specs.Prelude.{◌≡◌, [], ◌∷◌, ◌++◌, ◌+◌, ◌-◌, ◌/◌, ◌%◌, ◌^◌, ◌<◌, ◌≤◌, length, get_or, drop};
ghost use Rattle.words.specs.Bits.{bit};
ghost use Rattle.rings.specs.Rings.{Long};
ghost use Rattle.words.specs.Words.{word_at};
ghost use Rattle.slot_lists.specs.Lists.{start_word, ring_number, groups_at, back_at, map_of, list_in, Fills};
ghost use Rattle.slot_lists.specs.Changes.{ListMoved, GroupStored, ListsEmptied, Lowered, Nearest};

use parts::LISTS;
use rings::{begin, entry, pop, push};
use words::{set_word, word};

// The words of the groups that have lanes and of what was taken off the clock; those of the groups' starts and of their lists, less the group index.
pub const GROUPS: usize = LISTS;

pub const BACK: usize = LISTS + 1;

pub const STARTS: usize = LISTS;

pub const MAPS: usize = LISTS + 16;

// Lists of a group, and the lowest group.
const IN_GROUP: u64 = 32;

const LOWEST: usize = 16;

// One past the highest group.
const GROUPS_END: usize = 32;

// 2^36: 32 slots of the highest group, after which the lists come round again.
const ROUND: u64 = 68719476736;

// 2^32: a word of 32 lists is written twice into one of 64 bits.
const TWICE: u64 = 4294967296;

// The number of the list for a time in group `g`, `back` being what was taken off the clock.
pub fn list_number(time: u64, back: u64, g: u32) -> u32
    requires { (time < 2 ^ 63) × (back < 2 ^ 36) × (back % 2 ^ 31 ≡ 0) × (g ≤ 31) }
    ensures { (result ≡ (time + back) / 2 ^ g % 32) × (result < 32) }
{
    (((time >> g) + (back >> g)) % IN_GROUP) as u32
}

// The ring of a list.
pub fn ring_number(g: u32, b: u32) -> usize
    requires { (16 ≤ g) × (g ≤ 31) × (b < 32) }
    ensures { (result ≡ ring_number g b) × (result < 512) }
{
    (IN_GROUP as usize) * ((g as usize) - LOWEST) + (b as usize)
}

// The first lane of a list that has lanes.
pub fn first(t: &[u8], g: u32, b: u32, map: u64) -> usize
    requires { Long t.now × (16 ≤ g) × (g ≤ 31) × (b < 32) × (0 < length (list_in t.now g map b)) }
    ensures { (result ≡ get_or (list_in t.now g map b) 0 0) × (result < 256) }
{
    entry(t, ring_number(g, b), 0)
}

// Puts lane `k` at the end of a list; the word of the group's lists after it.
pub fn append(t: &mut [u8], g: u32, b: u32, map: u64, k: usize) -> u64
    requires { Long t.old × (16 ≤ g) × (g ≤ 31) × (b < 32) × (k < 256) × Fills t.old g map × (length (list_in t.old g map b) < 64) }
    ensures { ListMoved t.old t.new g map result b (list_in t.old g map b ++ (k ∷ [])) }
{
    let i = ring_number(g, b);
    if (map >> b) % 2 == 1 {
        push(t, i, k);
        map
    } else {
        begin(t, i, k);
        map + (1u64 << b)
    }
}

// Takes the first lane out of a list that has lanes; the word of the group's lists after it.
pub fn remove_first(t: &mut [u8], g: u32, b: u32, map: u64) -> u64
    requires { Long t.old × (16 ≤ g) × (g ≤ 31) × (b < 32) × Fills t.old g map × (0 < length (list_in t.old g map b)) }
    ensures { ListMoved t.old t.new g map result b (drop 1 (list_in t.old g map b)) }
{
    let left = pop(t, ring_number(g, b));
    if left == 0 { map - (1u64 << b) } else { map }
}

// How far from list `b` on, in circular order, the first marked one of a word of lists is.
pub fn nearest(map: u64, b: u32) -> u32
    requires { (0 < map) × (map < 2 ^ 32) × (b < 32) }
    ensures { Nearest map b result }
{
    let twice = map + map * TWICE;
    u64::trailing_zeros(twice >> b)
}

// Stores the words of group `g`, which had no lanes; `groups` is the word of the groups that had.
pub fn open_group(t: &mut [u8], g: u32, groups: u64, map: u64, start: u64)
    requires { Long t.old × (16 ≤ g) × (g ≤ 31) × (groups ≡ groups_at t.old) × (bit g groups ≡ 0) × (0 < map) }
    ensures { GroupStored t.old t.new g map start }
{
    let i = g as usize;
    set_word(t, MAPS + i, map);
    set_word(t, STARTS + i, start);
    set_word(t, GROUPS, groups + (1u64 << g));
}

// Stores the word of the lists of group `g`, which had lanes and has some.
pub fn set_lists(t: &mut [u8], g: u32, map: u64)
    requires { Long t.old × (16 ≤ g) × (g ≤ 31) × (bit g (groups_at t.old) ≡ 1) × (0 < map) }
    ensures { GroupStored t.old t.new g map (word_at t.old (start_word g)) }
{
    set_word(t, MAPS + (g as usize), map);
}

// Stores the start of group `g`, which has lanes.
pub fn set_start(t: &mut [u8], g: u32, start: u64)
    requires { Long t.old × (16 ≤ g) × (g ≤ 31) × (bit g (groups_at t.old) ≡ 1) × (0 < map_of t.old g) }
    ensures { GroupStored t.old t.new g (map_of t.old g) start }
{
    set_word(t, STARTS + (g as usize), start);
}

// Group `g`, which had lanes, has none any more.
pub fn clear_group(t: &mut [u8], g: u32, groups: u64)
    requires { Long t.old × (16 ≤ g) × (g ≤ 31) × (groups ≡ groups_at t.old) × (bit g groups ≡ 1) }
    ensures { GroupStored t.old t.new g 0 0 }
{
    set_word(t, GROUPS, groups - (1u64 << g));
}

// No group has lanes any more, whatever was stored; and nothing was taken off the clock.
pub fn empty(t: &mut [u8])
    requires { Long t.old }
    ensures { ListsEmptied t.old t.new }
{
    set_word(t, GROUPS, 0);
    set_word(t, BACK, 0);
}

// A time, `d` clock units earlier; 0 where it is below that.
pub fn earlier_by(time: u64, d: u64) -> u64
    ensures { result ≡ time - d }
{
    if time < d { 0 } else { time - d }
}

// `d` is taken off the clock: each group's start is so much earlier. The lists are numbered by the endless clock, so none of them moves. The start of a group
// that has no lanes means nothing, and goes along.
pub fn lower(t: &mut [u8], d: u64)
    requires { Long t.old × (back_at t.old < 2 ^ 36) × (d < 2 ^ 63) }
    ensures { Lowered t.old t.new d }
{
    for g in LOWEST..GROUPS_END {
        let start = word(t, STARTS + g);
        set_word(t, STARTS + g, earlier_by(start, d));
    }
    let back = word(t, BACK);
    set_word(t, BACK, (back + d) % ROUND);
}
