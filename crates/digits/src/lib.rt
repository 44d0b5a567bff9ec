// Numbers of 16 and of 32 bits in lent bytes, as digits of the 64-bit words of the crate `words`: a word has four quarters, or two halves. It knows
// nothing of tables.
//
// The functions are written byte by byte, and compile to one load or one store of that width; what they do is said of the word, so that a part of a
// table may be read by whole words in one place and by its digits in another. They are inner functions: a `requires` says that the word lies in the
// bytes.
#![tactic(auto)]

ghost use Rattle.std.specs.Prelude.{◌≡◌, ℕ, ◌+◌, ◌*◌, ◌/◌, ◌%◌, ◌^◌, ◌<◌, ◌≤◌, length, get_or};
ghost use Rattle.words.specs.Words.{word_at};
ghost use Rattle.digits.specs.Digits.{digit, put_digit, WordStored};

// The byte at `a`, as a number below 256, as every byte is.
fn byte(t: &[u8], a: usize) -> u64
    requires { a < length t.now }
    ensures { (result ≡ get_or t.now a 0) × (result < 256) × ((i : ℕ) → get_or t.now i 0 < 256) }
{
    t[a] as u64
}

// Quarter `i` of the bytes.
pub fn quarter(t: &[u8], i: usize) -> u64
    requires { i / 4 * 8 + 8 ≤ length t.now }
    ensures { (result ≡ digit 16 (i % 4) (word_at t.now (i / 4))) × (result < 2 ^ 16) }
{
    let a = i * 2;
    byte(t, a) + byte(t, a + 1) * 256
}

// Half `i` of the bytes.
pub fn half(t: &[u8], i: usize) -> u64
    requires { i / 2 * 8 + 8 ≤ length t.now }
    ensures { (result ≡ digit 32 (i % 2) (word_at t.now (i / 2))) × (result < 2 ^ 32) }
{
    let a = i * 4;
    byte(t, a) + byte(t, a + 1) * 256 + (byte(t, a + 2) + byte(t, a + 3) * 256) * 65536
}

// Changes quarter `i` of the bytes to `v`.
pub fn set_quarter(t: &mut [u8], i: usize, v: u64)
    requires { (i / 4 * 8 + 8 ≤ length t.old) × (v < 2 ^ 16) }
    ensures { WordStored t.old t.new (i / 4) (put_digit 16 (i % 4) v (word_at t.old (i / 4))) }
{
    let a = i * 2;
    // read for the proof alone, which asks that the word's other bytes are bytes; no instruction is left of it
    byte(t, a);
    t[a] = (v % 256) as u8;
    t[a + 1] = (v / 256 % 256) as u8;
}

// Changes half `i` of the bytes to `v`.
pub fn set_half(t: &mut [u8], i: usize, v: u64)
    requires { (i / 2 * 8 + 8 ≤ length t.old) × (v < 2 ^ 32) }
    ensures { WordStored t.old t.new (i / 2) (put_digit 32 (i % 2) v (word_at t.old (i / 2))) }
{
    let a = i * 4;
    // read for the proof alone, as in `set_quarter`
    byte(t, a);
    t[a] = (v % 256) as u8;
    t[a + 1] = (v / 256 % 256) as u8;
    t[a + 2] = (v / 65536 % 256) as u8;
    t[a + 3] = (v / 16777216 % 256) as u8;
}
