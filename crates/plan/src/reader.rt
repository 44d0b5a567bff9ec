// The reader: it has a place in the lent setup bytes, and goes on from field to field.
//
// A small struct of the bytes and a place, and thin functions over it. What stands at a place, and where it ends, is worked out below on a slice and a
// number, by `parsed_field` of `parse` and by `behind` of `fields`; above, `field_at` and `next_at` take the same two and serve callers that hold no
// reader.
ghost use Rattle.std.specs.Prelude.{◌≡◌};
ghost use Rattle.fields.specs.Header.{behind_at};
ghost use Rattle.plan.specs.Fields.{setup_item_at, setup_item_of};

use crate::parse::SetupField;
use rules::Refusal;

#[derive(Clone, Copy)]
pub struct Reader<'a> {
    pub src: &'a [u8],
    pub at: usize,
}

// A reader on the first of the lent bytes.
pub fn new<'a>(src: &'a [u8]) -> Reader<'a>
    ensures { (result.src ≡ src.entry) × (result.at ≡ 0) }
{
    Reader { src, at: 0 }
}

// The reader at another place of the same bytes.
pub fn moved<'a>(r: Reader<'a>, at: usize) -> Reader<'a>
    ensures { (result.src ≡ r.entry.src) × (result.at ≡ at) }
{
    Reader { src: r.src, at }
}

// The field where the reader stands.
pub fn field<'a>(r: Reader<'a>) -> Result<(SetupField, usize), Refusal>
    ensures { setup_item_of result ≡ setup_item_at r.entry.src.now r.entry.at }
{
    crate::parse::parsed_field(r.src, r.at)
}

// The reader that stands behind the field where this one stood, on the same bytes. Where no whole field stands it stays.
pub fn next<'a>(r: Reader<'a>) -> Reader<'a>
    ensures { (result.src ≡ r.entry.src) × (result.at ≡ behind_at r.entry.src.now r.entry.at) }
{
    let at = fields::behind(r.src, r.at);
    Reader { src: r.src, at }
}

// The field of a setup at a place of its bytes, through a reader that stands there.
pub fn field_at(s: &[u8], at: usize) -> Result<(SetupField, usize), Refusal>
    ensures { setup_item_of result ≡ setup_item_at s.now at }
{
    field(moved(new(s), at))
}

// The place behind the field at a place of a setup's bytes, through a reader that stands there and moves on.
pub fn next_at(s: &[u8], at: usize) -> usize
    ensures { result ≡ behind_at s.now at }
{
    next(moved(new(s), at)).at
}
