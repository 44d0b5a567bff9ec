// One pass over the groups' stored starts, at most sixteen, whatever the lanes: which group is served next, and where the clock settles.
//
// The word of the groups that have lanes is walked by its lowest set bit. Units: starts and finishes are clock units.
#![tactic(auto)]

ghost use Rattle.std.specs.Prelude.{◌≡◌, ℕ, ◌+◌, ◌^◌, ◌<◌, ◌≤◌};
ghost use Rattle.std.proofs.Math.Option.{some};
ghost use Rattle.rings.specs.Rings.{Long};
ghost use Rattle.slot_lists.specs.Lists.{Solid, start_at};
ghost use Rattle.groups.specs.Front.{preferred, Leads, Settles};

use slot_lists::{GROUPS, STARTS};
use words::{SetBits, word};

// A group, and its finish: start + 2s. The finish is `NEVER` where no group was found.
#[derive(Clone, Copy)]
pub struct Front {
    pub group: u32,
    pub finish: u64,
}

// Later than any start and any finish.
pub const NEVER: u64 = 18446744073709551615;

// The better of what was found and group `g` with its start, at clock `v`: the least finish, the lower group of two.
fn prefer(f: Front, g: u32, start: u64, v: u64) -> Front
    requires { (start < 2 ^ 63) × (g ≤ 31) }
    ensures { result ≡ preferred f g start v }
{
    if v < start {
        return f;
    }
    let finish = start + (2u64 << g);
    if finish < f.finish {
        return Front { group: g, finish };
    }
    f
}

// The group of least finish among those whose start is at most `v`, the lowest of them.
pub fn next_group(t: &[u8], v: u64) -> Front
    requires { Long t.now × Solid t.now × ((i q : ℕ) → 16 ≤ i → i ≤ 31 → start_at t.now i ≡ some q → q < 2 ^ 63) }
    ensures { Leads (start_at t.now) v 64 result }
{
    let mut best = Front {
        group: 0,
        finish: NEVER,
    };
    for g in SetBits(word(t, GROUPS)) {
        let start = word(t, STARTS + (g as usize));
        best = prefer(best, g, start, v);
    }
    best
}

// Where the clock settles, from `v` on: it stays where a start is at most `v`, or no group has lanes, and else becomes the least start.
pub fn settled_clock(t: &[u8], v: u64) -> u64
    requires { Long t.now × Solid t.now × ((i q : ℕ) → 16 ≤ i → i ≤ 31 → start_at t.now i ≡ some q → q < 2 ^ 63) }
    ensures { Settles (start_at t.now) v result }
{
    let mut found = NEVER;
    for g in SetBits(word(t, GROUPS)) {
        let start = word(t, STARTS + (g as usize));
        if start <= v {
            return v;
        }
        found = start.min(found);
    }
    if found == NEVER {
        return v;
    }
    found
}
