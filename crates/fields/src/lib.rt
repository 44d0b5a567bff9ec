// Fields of lent bytes (R8.1): a tag, the length of a value, and the value.
//
// The order in a field is 1 (header), 2, 3, 1 (value): `field_at` answers the header, the tag and the length are judged, and `fits` then says whether the
// value is whole. `parsed` reads a field so, by what its input knows: an input is a type that says it in `Fields`. Callers that judge between the steps, or
// refuse in another way, take the steps by themselves. `behind` moves on by a field.
//
// Units: a place is a number of bytes from the first byte of the slice; a length is a number of bytes. `field_at`, `fits`, `parsed` and `behind` take any
// slice and any place. The numbers are inner functions: their `requires` says that the bytes are there.
#![tactic(auto)]

ghost use Rattle.std.specs.Prelude.{◌≡◌, ◌+◌, ◌^◌, ◌≤◌, ◌<◌, leb, length, true};
ghost use Rattle.fields.specs.Bytes.{big};
ghost use Rattle.fields.specs.Header.{header_at, behind_at};
ghost use Rattle.fields.specs.Item.{FieldKinds, item_at, item_told};

use rules::Refusal;

// What stands at a place where a field is wanted.
#[derive(Clone, Copy)]
pub enum Field {
    // No byte is left.
    Nothing,
    // One or two bytes are left: the header is cut.
    Cut,
    // A whole header, with the place of its value, which may be cut.
    Header {
        tag: u8,
        value: usize,
        length: usize,
    },
}

// A tag and a two-byte length.
pub const HEADER: usize = 3;

pub fn field_at(s: &[u8], at: usize) -> Field
    ensures { result ≡ header_at s.now at }
{
    if at >= s.len() {
        return Field::Nothing;
    }
    if s.len() - at < HEADER {
        return Field::Cut;
    }
    Field::Header {
        tag: s[at],
        value: at + HEADER,
        length: u16_at(s, at + 1) as usize,
    }
}

// Whether the `n` bytes from `at` on are all there.
pub fn fits(s: &[u8], at: usize, n: usize) -> bool
    ensures { result ≡ leb (at + n) (length s.now) }
{
    if s.len() < at {
        return false;
    }
    n <= s.len() - at
}

// What an input knows of its fields: the tags, the lengths that are right for a tag that is known, and what a value is.
pub trait Fields {
    type Taken: Copy;

    ghost kinds: { FieldKinds Self.Taken };

    fn known(tag: u8) -> bool
        ensures { result ≡ kinds.tag tag };

    fn fitting(tag: u8, n: usize) -> bool
        ensures { result ≡ kinds.fits tag n };

    fn taken(s: &[u8], tag: u8, at: usize, n: usize) -> Self::Taken
        requires { (kinds.fits tag n ≡ true) × (at + n ≤ length s.now) }
        ensures { result ≡ kinds.field s.now tag at n };
}

// The field at a place, taken apart, and the place after it: refusals 1 (header), 2, 3, 1 (value).
pub fn parsed<F: Fields>(s: &[u8], at: usize) -> Result<(F::Taken, usize), Refusal>
    ensures { item_told result ≡ item_at F.kinds s.now at }
{
    match field_at(s, at) {
        Field::Nothing => Err(Refusal::Cut(s.len())),
        Field::Cut => Err(Refusal::Cut(at)),
        Field::Header { tag, value, length } => {
            if !F::known(tag) {
                return Err(Refusal::UnknownTag(at));
            }
            if !F::fitting(tag, length) {
                return Err(Refusal::WrongLength(at));
            }
            if !fits(s, value, length) {
                return Err(Refusal::Cut(at));
            }
            Ok((F::taken(s, tag, value, length), value + length))
        }
    }
}

// The place behind the field at a place; the place itself where no whole field stands.
pub fn behind(s: &[u8], at: usize) -> usize
    ensures { result ≡ behind_at s.now at }
{
    match field_at(s, at) {
        Field::Nothing => at,
        Field::Cut => at,
        Field::Header {
            tag: _,
            value,
            length,
        } => {
            if fits(s, value, length) {
                value + length
            } else {
                at
            }
        }
    }
}

// The two-byte number at a place.
pub fn u16_at(s: &[u8], at: usize) -> u16
    requires { at + 2 ≤ length s.now }
    ensures { (result ≡ big s.now at 2) × (result < 2 ^ 16) }
{
    u16::from_be_bytes([s[at], s[at + 1]])
}

// The four-byte number at a place.
pub fn u32_at(s: &[u8], at: usize) -> u32
    requires { at + 4 ≤ length s.now }
    ensures { (result ≡ big s.now at 4) × (result < 2 ^ 32) }
{
    let high = u16_at(s, at);
    let low = u16_at(s, at + 2);
    (high as u32) * 65536 + (low as u32)
}
