// A lane gets its S, or a new one: it goes to the end of the list of its slot, and its group's start follows. Each in a time that does not grow with the
// lanes. proofs/Rules.antt: what `add` and `refile` leave agrees with the rules' state after put and take.
#![tactic(auto)]

ghost use Rattle.std.specs.Prelude.{◌≡◌, ◌+◌, ◌%◌, ◌^◌, ◌<◌, ◌≤◌, length};
ghost use Rattle.std.proofs.Math.Option.{some};
ghost use Rattle.words.specs.Bits.{bit};
ghost use Rattle.words.specs.Words.{word_at};
ghost use Rattle.rings.specs.Rings.{Long};
ghost use Rattle.slot_lists.specs.Lists.{start_word, groups_at, list_at, start_at, Solid};
ghost use Rattle.lane_moves.specs.Moves.{list_of, Added, Closing, Rooms, Refiled};

use slot_lists::{
    BACK, GROUPS, MAPS, STARTS, append, clear_group, list_number, nearest, open_group,
    remove_first, set_lists, set_start,
};
use words::word;

// Later than any start.
pub const NEVER: u64 = 18446744073709551615;

// Lane `k` of group `g`, which was in no list, got the S `s`; `groups` is the word of the groups that have lanes.
pub fn add(t: &mut [u8], groups: u64, g: u32, s: u64, k: usize)
    requires { Long t.old × Solid t.old × (groups ≡ groups_at t.old) × (16 ≤ g) × (g ≤ 31) × (s < 2 ^ 63) × (k < 256) × (length (list_at t.old g (list_of t.old g s)) < 64) }
    ensures { Added t.old t.new g s k }
{
    let back = word(t, BACK);
    let b = list_number(s, back, g);
    let r = (s >> g) << g;
    if (groups >> g) % 2 == 1 {
        let lists = word(t, MAPS + (g as usize));
        let start = word(t, STARTS + (g as usize));
        let map = append(t, g, b, lists, k);
        set_lists(t, g, map);
        if r < start {
            set_start(t, g, r);
        }
    } else {
        let map = append(t, g, b, 0, k);
        open_group(t, g, groups, map, r);
    }
}

// Stores the words of group `g`, whose start was `start` in list `b`, after a lane left that list. `NEVER` where the group has no lanes any more; else a
// time that is at most a clock which had reached `start` exactly if that clock has reached the group's start of now: 0 where the start stays.
fn close(t: &mut [u8], g: u32, groups: u64, map: u64, start: u64, b: u32) -> u64
    requires { Long t.old × (16 ≤ g) × (g ≤ 31) × (groups ≡ groups_at t.old) × (bit g groups ≡ 1) × (map < 2 ^ 32) × (start < 2 ^ 63) × (word_at t.old (start_word g) ≡ start) × (b < 32) }
    ensures { Closing t.old t.new g map start b result }
{
    if map == 0 {
        clear_group(t, g, groups);
        return NEVER;
    }
    set_lists(t, g, map);
    if (map >> b) % 2 == 1 {
        return 0;
    }
    let d = nearest(map, b);
    let next = start + ((d as u64) << g);
    set_start(t, g, next);
    next
}

// Lane `k`, the first of the list of group `g`'s start, was served. If it holds more, its new S is `s`. What `close` answers.
pub fn refile(t: &mut [u8], g: u32, start: u64, s: u64, k: usize, more: bool) -> u64
    requires { Long t.old × Solid t.old × (16 ≤ g) × (g ≤ 31) × (start_at t.old g ≡ some start) × (start < 2 ^ 63) × (s < 2 ^ 63) × (k < 256) × (0 < length (list_at t.old g (list_of t.old g start))) × Rooms t.old g (list_of t.old g start) (list_of t.old g s) }
    ensures { Refiled t.old t.new g start s k more result }
{
    let groups = word(t, GROUPS);
    let back = word(t, BACK);
    let b = list_number(start, back, g);
    let lists = word(t, MAPS + (g as usize));
    let left = remove_first(t, g, b, lists);
    if more {
        let map = append(t, g, list_number(s, back, g), left, k);
        close(t, g, groups, map, start, b)
    } else {
        close(t, g, groups, left, start, b)
    }
}
