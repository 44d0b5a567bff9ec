// One field of a settings page, taken apart: refusals 1 to 3.
ghost use Rattle.std.specs.Prelude.{◌≡◌};
ghost use Rattle.page.specs.Fields.{page_kinds, page_item_at, page_item_of};

use fields::Fields;
use rules::Refusal;

pub const EDITION: u8 = 0x40;

pub const SETTINGS: u8 = 0x41;

pub const END: u8 = 0x7F;

// From here on a tag is one that a newer office may send: the field is skipped.
pub const SKIPPED: u8 = 0x80;

#[derive(Clone, Copy)]
pub enum PageField {
    Edition(u16),
    // A whole setup: where its bytes begin, and how many they are.
    Settings(usize, usize),
    Skipped,
    End,
}

// What a page knows of its fields.
pub struct Pages;

impl Fields for Pages {
    type Taken = PageField;

    ghost kinds = { page_kinds };

    fn known(tag: u8) -> bool {
        tag >= SKIPPED || matches!(tag, EDITION | SETTINGS | END)
    }

    // Whether a length is right for a tag that is known.
    fn fitting(tag: u8, n: usize) -> bool {
        match tag {
            EDITION => n == 2,
            END => n == 0,
            _ => true,
        }
    }

    fn taken(s: &[u8], tag: u8, at: usize, n: usize) -> PageField {
        match tag {
            EDITION => PageField::Edition(fields::u16_at(s, at)),
            SETTINGS => PageField::Settings(at, n),
            END => PageField::End,
            _ => PageField::Skipped,
        }
    }
}

// The field of a page at a place, and the place after it.
pub fn parsed_field(s: &[u8], at: usize) -> Result<(PageField, usize), Refusal>
    ensures { page_item_of result ≡ page_item_at s.now at }
{
    fields::parsed::<Pages>(s, at)
}
