// 512 rings of small numbers in lent bytes: first in, first out, 64 places in each, one byte for a place. The slot lists of the crate `slot_lists` are
// kept in them.
//
// Ring i has a byte for its first place, a byte for how many stand in it, and 64 places of its own, so that a change of one ring cannot touch another.
// These are inner functions: a `requires` says that the bytes are long enough, and what the ring holds.
#![tactic(auto)]

ghost use Rattle.std.specs.Prelude.{◌≡◌, [], ◌∷◌, ◌++◌, ◌<◌, length, get_or, set, drop};
ghost use Rattle.rings.specs.Rings.{Long, ring_at, Rung};

// Where the first places, the numbers and the places begin.
const HEADS: usize = parts::RINGS;

const COUNTS: usize = HEADS + RINGS;

const PLACES: usize = COUNTS + RINGS;

// Rings, and places of a ring.
const RINGS: usize = 512;

const DEPTH: usize = 64;

// The first byte past the rings.
pub const END: usize = PLACES + DEPTH * RINGS;

// The byte at `a`, as a number below 256.
fn byte(t: &[u8], a: usize) -> usize
    requires { a < length t.now }
    ensures { (result ≡ get_or t.now a 0) × (result < 256) }
{
    t[a] as usize
}

// Changes the byte at `a`.
fn set_byte(t: &mut [u8], a: usize, v: u8)
    requires { a < length t.old }
    ensures { t.new ≡ set t.old a v }
{
    t[a] = v;
}

// How many stand in ring `i`.
pub fn held(t: &[u8], i: usize) -> usize
    requires { Long t.now × (i < 512) }
    ensures { (result ≡ length (ring_at t.now i)) × (result < 256) }
{
    byte(t, COUNTS + i)
}

// The one at place `j` of ring `i`, counted from its first.
pub fn entry(t: &[u8], i: usize, j: usize) -> usize
    requires { Long t.now × (i < 512) × (j < 256) × (j < length (ring_at t.now i)) }
    ensures { (result ≡ get_or (ring_at t.now i) j 0) × (result < 256) }
{
    let h = byte(t, HEADS + i);
    byte(t, PLACES + DEPTH * i + (h + j) % DEPTH)
}

// Ring `i` with `k` alone, whatever was in it.
pub fn begin(t: &mut [u8], i: usize, k: usize)
    requires { Long t.old × (i < 512) × (k < 256) }
    ensures { Rung t.old t.new i (k ∷ []) }
{
    let h = byte(t, HEADS + i);
    set_byte(t, PLACES + DEPTH * i + h % DEPTH, k as u8);
    set_byte(t, COUNTS + i, 1);
}

// Puts `k` at the end of ring `i`, which has room.
pub fn push(t: &mut [u8], i: usize, k: usize)
    requires { Long t.old × (i < 512) × (k < 256) × (length (ring_at t.old i) < 64) }
    ensures { Rung t.old t.new i (ring_at t.old i ++ (k ∷ [])) }
{
    let h = byte(t, HEADS + i);
    let n = byte(t, COUNTS + i);
    set_byte(t, PLACES + DEPTH * i + (h + n) % DEPTH, k as u8);
    set_byte(t, COUNTS + i, (n + 1) as u8);
}

// Takes the first out of ring `i`, which holds some; how many are left.
pub fn pop(t: &mut [u8], i: usize) -> usize
    requires { Long t.old × (i < 512) × (0 < length (ring_at t.old i)) }
    ensures { (result ≡ length (drop 1 (ring_at t.old i))) × Rung t.old t.new i (drop 1 (ring_at t.old i)) }
{
    let h = byte(t, HEADS + i);
    let n = byte(t, COUNTS + i);
    set_byte(t, HEADS + i, ((h + 1) % DEPTH) as u8);
    let left = n - 1;
    set_byte(t, COUNTS + i, left as u8);
    left
}
