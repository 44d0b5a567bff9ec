// The board's bytes: 64 lines of two 64-bit words, low byte first, 1,024 bytes.
//
// Line k has word 2k, train + 2^32 sequence, and word 2k + 1, cell + 2^16 kind. A free line is all zero, and every other bit is 0, so a board of `desk` has one
// encoding. `Shows` (specs/Layout.antt) says when bytes show a board, `board_of` is the board that they mean.
//
// `sound` is the test of 29 and takes any bytes. The others are inner functions: a `requires` says what the callers keep.
#![tactic(auto)]

ghost use Rattle.std.specs.Prelude.{◌≡◌, ◌+◌, ◌*◌, ◌/◌, ◌%◌, ◌^◌, ◌<◌, ◌≤◌, eqb};
ghost use Rattle.desk.specs.Board.{line_at, is_of, is_free};
ghost use Rattle.words.specs.Words.{word_at, put_word};
ghost use Rattle.board.specs.Layout.{BoardRoom, board_of, handover_of, well_formed, TellsBoard, Parted, FoundFirst, BitMarked, TrainOf, SeenHere};
ghost use Rattle.words.specs.Bits.{bit};

use desk_line::Line;
use words::{set_word, word};

// The fixed size of a board, in bytes.
pub const SIZE: usize = 1024;

pub const LINES: usize = 64;

// Where the sequence begins in a line's first word, and the kind in its second.
const SEQUENCE_UNIT: u64 = 4294967296;

const KIND_UNIT: u64 = 65536;

// The kinds after the known ones begin here, and the leaves.
const LEAVES: u64 = 131072;

const UNKNOWN: u64 = 196608;

const KINDS: u64 = 256;

// The words of the trains that the test of 29 has passed.
const SEEN: usize = 16;

// Line `k`.
pub fn line_at(t: &[u8], k: usize) -> Line
    requires { BoardRoom t.now × (k < 64) }
    ensures { handover_of result ≡ line_at (board_of t.now) k }
{
    let a = word(t, k * 2);
    let c = word(t, k * 2 + 1);
    Line {
        train: (a % SEQUENCE_UNIT) as u32,
        cell: (c % KIND_UNIT) as u16,
        kind: (c / KIND_UNIT % KINDS) as u8,
        sequence: (a / SEQUENCE_UNIT) as u32,
    }
}

// Stores line `k`: its two words, and no other byte.
pub fn set_line(t: &mut [u8], k: usize, l: Line)
    requires { BoardRoom t.old × (k < 64) }
    ensures { t.new ≡ put_word (put_word t.old (k * 2) (l.train + 4294967296 * l.sequence)) (k * 2 + 1) (l.cell + 65536 * l.kind) }
{
    set_word(
        t,
        k * 2,
        (l.train as u64) + SEQUENCE_UNIT * (l.sequence as u64),
    );
    set_word(t, k * 2 + 1, (l.cell as u64) + KIND_UNIT * (l.kind as u64));
}

// Whether line `k` is of a train.
fn is_of(t: &[u8], k: usize, train: u32) -> bool
    requires { BoardRoom t.now × (k < 64) }
    ensures { result ≡ is_of train (line_at (board_of t.now) k) }
{
    let l = line_at(t, k);
    if l.train != train {
        return false;
    }
    if l.kind == 0 {
        return false;
    }
    true
}

// Whether line `k` is free.
fn is_free(t: &[u8], k: usize) -> bool
    requires { BoardRoom t.now × (k < 64) }
    ensures { result ≡ is_free (line_at (board_of t.now) k) }
{
    let l = line_at(t, k);
    l.kind == 0
}

// The first line below `n` that is of a train.
pub fn find(t: &[u8], train: u32, n: usize) -> Option<usize>
    requires { BoardRoom t.now × (n ≤ 64) }
    ensures { FoundFirst (is_of train) (board_of t.now) n result }
{
    for k in 0..n {
        if is_of(t, k, train) {
            return Some(k);
        }
    }
    None
}

// The lowest free line.
pub fn lowest(t: &[u8]) -> Option<usize>
    requires { BoardRoom t.now }
    ensures { FoundFirst is_free (board_of t.now) 64 result }
{
    for k in 0..LINES {
        if is_free(t, k) {
            return Some(k);
        }
    }
    None
}

// Whether two words are a line: free, joined, or left with a sequence of 1 or more.
fn formed(a: u64, c: u64) -> bool
    ensures { result ≡ well_formed a c }
{
    if c == 0 {
        return a == 0;
    }
    if c < KIND_UNIT {
        return false;
    }
    if c < LEAVES {
        return true;
    }
    if c < UNKNOWN {
        return a >= SEQUENCE_UNIT;
    }
    false
}

fn formed_at(t: &[u8], k: usize) -> bool
    requires { BoardRoom t.now × (k < 64) }
    ensures { (result ≡ well_formed (word_at t.now (k * 2)) (word_at t.now (k * 2 + 1))) × (word_at t.now (k * 2) < 2 ^ 64) }
{
    let a = word(t, k * 2);
    let c = word(t, k * 2 + 1);
    formed(a, c)
}

// The train of line `k`; of a free line 0.
fn train_at(t: &[u8], k: usize) -> u32
    requires { BoardRoom t.now × (k < 64) }
    ensures { TrainOf (board_of t.now) k result }
{
    let l = line_at(t, k);
    l.train
}

// Which of the sixteen words has a train's bit.
fn bucket(train: u32) -> usize
    ensures { (result ≡ train / 64 % 16) × (result < 16) }
{
    (train / 64 % 16) as usize
}

// Whether the bit of a train is set, by its low six bits.
fn marked(seen: u64, train: u32) -> bool
    ensures { result ≡ eqb (bit (train % 64) seen) 1 }
{
    (seen >> (train % 64)) % 2 == 1
}

// The same word with the train's bit set.
fn mark(seen: u64, train: u32) -> u64
    ensures { BitMarked seen (train % 64) result }
{
    if marked(seen, train) {
        return seen;
    }
    seen + (1u64 << (train % 64))
}

// Whether line `k` is free or its train is on no line below. The lines below are looked at only where a train there has the same bit.
fn parted(t: &[u8], k: usize, seen: u64) -> bool
    requires { BoardRoom t.now × (k < 64) × SeenHere (board_of t.now) k seen }
    ensures { Parted result (board_of t.now) k }
{
    let l = line_at(t, k);
    if l.kind == 0 {
        return true; // a free line may stand anywhere
    }
    if !marked(seen, l.train) {
        return true;
    }
    find(t, l.train, k).is_none()
}

// Whether the bytes show a board that the rules can make.
pub fn sound(t: &[u8]) -> bool
    ensures { TellsBoard result t.now }
{
    if t.len() < SIZE {
        return false;
    }
    let mut seen = [0u64; SEEN];
    for k in 0..LINES {
        if !formed_at(t, k) {
            return false;
        }
        let train = train_at(t, k);
        let i = bucket(train);
        let word = seen[i];
        if !parted(t, k, word) {
            return false;
        }
        seen[i] = mark(word, train);
    }
    true
}
