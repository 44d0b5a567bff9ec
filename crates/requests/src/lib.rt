// The fields behind a session's setup (R10.1, R10.2), with the refusals 1 to 3.
//
// A field is read in two steps, for the order in a field is 1 (header), 2, 3, 1 (value): `head_at` judges the header; the caller then reads the value, as
// one number, and `request_of` takes that apart. Each request's shape stands in `size_of` and `request_of`, and that of a put and a take once more in
// `quick_at`, which reads the whole field at once.
//
// Units: a place is a number of bytes from the first byte of the input; a record's length is in `Bytes`.
#![tactic(auto)]

ghost use Rattle.std.specs.Prelude.{◌≡◌};
ghost use Rattle.requests.specs.Request.{request_size, size_is, head_at, head_is, call_is, call_by_number, Quickly};

use fields::{Field, HEADER, u16_at, u32_at};
use rules::Refusal;
use units::Bytes;

pub const PUT: u8 = 0x20;

pub const TAKE: u8 = 0x21;

pub const LOOK: u8 = 0x22;

pub const SETS: u8 = 0x23;

pub const LAG: u8 = 0x24;

pub const RESTART: u8 = 0x25;

pub const PUT_TRAIN: u8 = 0x26;

pub const END: u8 = 0x7F;

#[derive(Clone, Copy)]
pub enum Request {
    // A put of a train; without one it is train 0.
    Put {
        lane: u8,
        train: u8,
        mark: u32,
        length: Bytes,
    },
    Take,
    Look,
    Sets,
    Lag(u8),
    Restart,
}

// How long the value of a tag is, where the tag is known: R10.1, and 0x26, a put with its train behind the lane. A lag names its lane; the others have no value.
pub fn size_of(tag: u8) -> Option<usize>
    ensures { size_is result ≡ request_size tag }
{
    match tag {
        PUT => Some(7),
        PUT_TRAIN => Some(8),
        LAG => Some(1),
        TAKE | LOOK | SETS | RESTART | END => Some(0),
        _ => None,
    }
}

// The header at a place, judged: refusals 1 (header), 2 and 3. A tag that is known, and the length of its value, which may be cut.
pub fn head_at(s: &[u8], at: usize) -> Result<(u8, usize), Refusal>
    ensures { head_is result ≡ head_at s.now at }
{
    match fields::field_at(s, at) {
        Field::Nothing => Err(Refusal::Cut(s.len())),
        Field::Cut => Err(Refusal::Cut(at)),
        Field::Header {
            tag,
            value: _,
            length,
        } => match size_of(tag) {
            None => Err(Refusal::UnknownTag(at)),
            Some(n) => {
                if length == n {
                    Ok((tag, length))
                } else {
                    Err(Refusal::WrongLength(at))
                }
            }
        },
    }
}

// The request of a tag other than the end's, by its value as one number.
pub fn request_of(tag: u8, x: u64) -> Request
    ensures { call_is result ≡ call_by_number tag x }
{
    match tag {
        PUT => Request::Put {
            lane: (x / 281474976710656 % 256) as u8,
            train: 0,
            mark: (x / 65536 % 4294967296) as u32,
            length: Bytes(x % 65536),
        },
        PUT_TRAIN => Request::Put {
            lane: (x / 72057594037927936 % 256) as u8,
            train: (x / 281474976710656 % 256) as u8,
            mark: (x / 65536 % 4294967296) as u32,
            length: Bytes(x % 65536),
        },
        TAKE => Request::Take,
        LOOK => Request::Look,
        SETS => Request::Sets,
        LAG => Request::Lag((x % 256) as u8),
        _ => Request::Restart,
    }
}

// What stands at a place, with the place behind it, if it is a whole put without a train or a whole take: most requests of a session are. They are read at
// once, each part of the value by itself. `None` says nothing of the place.
pub fn quick_at(s: &[u8], at: usize) -> Option<(Request, usize)>
    ensures { Quickly s.now at result }
{
    if at >= s.len() {
        return None;
    }
    let left = s.len() - at;
    if left < HEADER {
        return None;
    }
    let tag = s[at];
    let value = at + HEADER;
    if tag == TAKE {
        if u16_at(s, at + 1) != 0 {
            return None;
        }
        return Some((Request::Take, value));
    }
    if tag != PUT {
        return None;
    }
    if left < 10 {
        return None;
    }
    if u16_at(s, at + 1) != 7 {
        return None;
    }
    let request = Request::Put {
        lane: s[value],
        train: 0,
        mark: u32_at(s, value + 1),
        length: Bytes(u16_at(s, value + 5) as u64),
    };
    Some((request, value + 7))
}
