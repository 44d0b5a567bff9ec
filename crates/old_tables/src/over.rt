// Converting a case.
use convert::{NEW_SIZE, convert};
use std::io::Stdout;

// Room for a table and eight bytes behind it.
pub const ROOM: usize = 65544;

// What the new bytes hold before.
pub const MARK: u8 = 9;

// Whether all bytes from `from` on are as they were.
fn stays(new: &[u8], from: usize) -> bool {
    new.iter().skip(from).all(|b| *b == MARK)
}

fn kept(out: Stdout, new: &[u8], from: usize) {
    if stays(new, from) {
        printed::line(out, b" stays");
    } else {
        printed::line(out, b" CHANGED");
    }
}

// Converts, and says what was answered and whether the bytes stay that have to.
pub fn over(out: Stdout, name: &[u8], old: &[u8], new: &mut [u8]) {
    printed::word(out, name);
    printed::word(out, b": ");
    let r = convert(old, new);
    match r {
        Ok(()) => {
            printed::word(out, b"converted, the rest");
            kept(out, new, NEW_SIZE);
        }
        Err(x) => {
            printed::refusal(out, x);
            printed::word(out, b", all");
            kept(out, new, 0);
        }
    }
}

// A case that is not looked at further.
pub fn only(out: Stdout, name: &[u8], old: &[u8]) {
    let mut new = [MARK; ROOM];
    over(out, name, old, &mut new);
}
