// Text into lent bytes: words and decimal numbers, each at a place, answering the place behind it.
//
// Characters are ASCII bytes. These are inner functions: each requires that what it writes fits; specs/Decimal.antt says what that is.
#![tactic(auto)]

ghost use Rattle.std.specs.Prelude.{◌≡◌, [], ◌∷◌, ◌+◌, ◌/◌, ◌%◌, ◌<◌, ◌≤◌, length};
ghost use Rattle.std.proofs.lemmas.List.Edits.{sets};
ghost use Rattle.text.specs.Decimal.{digits, Width, decimal, signed};

// Writes a word.
pub fn put_word(a: &mut [u8], at: usize, word: &[u8]) -> usize
    requires { at + length word.now ≤ length a.old }
    ensures { (a.new ≡ sets a.old at word.now) × (result ≡ at + length word.now) }
{
    let end = at + word.len();
    a[at..end].copy_from_slice(word);
    end
}

// How many decimal digits a number has.
fn width(n: u64) -> usize
    ensures { Width n result × (result ≤ 20) }
{
    let mut k = 1;
    let mut left = n / 10;
    while 0 < left {
        left /= 10;
        k += 1;
    }
    k
}

// Writes the `k` lowest digits of a number.
fn put_digits(a: &mut [u8], at: usize, k: usize, n: u64)
    requires { at + k ≤ length a.old }
    ensures { a.new ≡ sets a.old at (digits k n) }
{
    let mut left = n;
    for i in (0..k).rev() {
        a[at + i] = (48 + left % 10) as u8;
        left /= 10;
    }
}

// The byte of a digit.
fn digit(d: u64) -> u8
    requires { d < 10 }
    ensures { result ≡ 48 + d }
{
    (48 + d) as u8
}

// Writes a number below 100 as two digits.
fn put_two(a: &mut [u8], at: usize, n: u64)
    requires { (at + 2 ≤ length a.old) × (n < 100) }
    ensures { a.new ≡ sets a.old at ((48 + n / 10) ∷ (48 + n % 10) ∷ []) }
{
    a[at] = digit(n / 10);
    a[at + 1] = digit(n % 10);
}

// Writes a number in decimal. One of up to four digits, as most are, takes no loop.
pub fn put_number(a: &mut [u8], at: usize, n: u64) -> usize
    requires { at + length (decimal n) ≤ length a.old }
    ensures { (a.new ≡ sets a.old at (decimal n)) × (result ≡ at + length (decimal n)) }
{
    if n < 10 {
        a[at] = digit(n);
        return at + 1;
    }
    if n < 100 {
        put_two(a, at, n);
        return at + 2;
    }
    if n < 1000 {
        a[at] = digit(n / 100);
        put_two(a, at + 1, n % 100);
        return at + 3;
    }
    if n < 10000 {
        put_two(a, at, n / 100);
        put_two(a, at + 2, n % 100);
        return at + 4;
    }
    let k = width(n);
    put_digits(a, at, k, n);
    at + k
}

// Writes a number in decimal, with a minus sign below zero.
pub fn put_signed(a: &mut [u8], at: usize, z: i64) -> usize
    requires { at + length (signed z) ≤ length a.old }
    ensures { (a.new ≡ sets a.old at (signed z)) × (result ≡ at + length (signed z)) }
{
    let n = z.unsigned_abs();
    if z < 0 {
        a[at] = 45;
        put_number(a, at + 1, n)
    } else {
        put_number(a, at, n)
    }
}
