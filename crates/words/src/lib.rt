// 64-bit words, low byte first, at fixed places of lent bytes. It knows nothing of tables.
//
// `word` and `set_word` are written byte by byte, and compile to one load and one store. They are inner functions: a `requires` says that the word lies
// in the bytes. The laws (the same word, another word, the length and the bytes past a run of words) are in proofs/Laws.antt.
#![tactic(auto)]

ghost use Rattle.std.specs.Prelude.{◌≡◌, ◌+◌, ◌*◌, ◌^◌, ◌<◌, ◌≤◌, length, get_or};
ghost use Rattle.words.specs.Runs.{elements_from};
ghost use Rattle.words.specs.Words.{le_val, word_at, put_word};
ghost use Rattle.words.specs.Bits.{NextBit, LastBit};
ghost use Rattle.std.specs.Iterator.{at_most};

// The byte at `a`, as a number below 256.
fn byte(t: &[u8], a: usize) -> u64
    requires { a < length t.now }
    ensures { (result ≡ get_or t.now a 0) × (result < 256) }
{
    t[a] as u64
}

// Four bytes from `a` on, as a number below 2^32.
fn half(t: &[u8], a: usize) -> u64
    requires { a + 4 ≤ length t.now }
    ensures { (result ≡ le_val (elements_from t.now a 4)) × (result < 2 ^ 32) }
{
    byte(t, a) + byte(t, a + 1) * 256 + (byte(t, a + 2) + byte(t, a + 3) * 256) * 65536
}

// Eight bytes from `a` on: two halves, each a function of its own, which LLVM joins before it looks at their use. Eight bytes in one sum it splits
// again where only some of the bits are asked for, into up to four loads.
fn whole(t: &[u8], a: usize) -> u64
    requires { a + 8 ≤ length t.now }
    ensures { result ≡ le_val (elements_from t.now a 8) }
{
    half(t, a) + half(t, a + 4) * 4294967296
}

// Word `i` of the bytes.
pub fn word(t: &[u8], i: usize) -> u64
    requires { i * 8 + 8 ≤ length t.now }
    ensures { result ≡ word_at t.now i }
{
    whole(t, i * 8)
}

// Changes word `i` of the bytes to `v`.
pub fn set_word(t: &mut [u8], i: usize, v: u64)
    requires { i * 8 + 8 ≤ length t.old }
    ensures { t.new ≡ put_word t.old i v }
{
    let a = i * 8;
    t[a] = (v % 256) as u8;
    t[a + 1] = (v / 256 % 256) as u8;
    t[a + 2] = (v / 65536 % 256) as u8;
    t[a + 3] = (v / 16777216 % 256) as u8;
    t[a + 4] = (v / 4294967296 % 256) as u8;
    t[a + 5] = (v / 1099511627776 % 256) as u8;
    t[a + 6] = (v / 281474976710656 % 256) as u8;
    t[a + 7] = (v / 72057594037927936 % 256) as u8;
}

// The set bits of a word, from the lowest up; under `rev`, from the highest down.
#[derive(Clone, Copy)]
pub struct SetBits(pub u64);

impl Iterator for SetBits {
    type Item = u32;

    ghost next_gives = { λ s r t. NextBit s.0 r t.0 };

    ghost remaining = { λ s. at_most s.0 };

    fn next(&mut self) -> Option<u32> {
        if self.0 == 0 {
            return None;
        }
        let lowest = u64::trailing_zeros(self.0);
        self.0 = self.0 & (self.0 - 1);
        Some(lowest)
    }
}

impl DoubleEndedIterator for SetBits {
    ghost next_back_gives = { λ s r t. LastBit s.0 r t.0 };

    fn next_back(&mut self) -> Option<u32> {
        if self.0 == 0 {
            return None;
        }
        let highest = 63 - u64::leading_zeros(self.0);
        self.0 -= 1u64 << highest;
        Some(highest)
    }
}
