// The rules of the line scheduler (docs/RULES.md, R1 to R6), and all that is true of every list of calls.
//
// There is no code here but the types that the promises speak of, and the numbers of the refusals. The rules are definitions in specs/, over plain numbers and lists; they know
// nothing of bytes and tables. The theorems are in proofs/: the fair share (proofs/Fair.antt), never found not good (proofs/AlwaysGood.antt), each
// accepted record handed out once and in order (proofs/Order.antt), and what the four sets mean (proofs/GroupRule.antt, proofs/BySets.antt).
//
// A lane is what the field calls a flow, the clock V is the system's virtual time, and a record is a packet.
#![tactic(auto)]

ghost use Rattle.std.specs.Prelude.{◌≡◌, ◌<◌};
ghost use Rattle.rules.specs.Reads.{number};

use units::Bytes;

// A record that was taken or looked at: the lane that it waited in, its train (0 in a lane that is not shared), the host's mark, and its length.
#[derive(Clone, Copy)]
pub struct Record {
    pub lane: u8,
    pub train: u8,
    pub mark: u32,
    pub length: Bytes,
}

// The four words of `sets`, by the QFQ report's letters: eligible or ineligible, ready or blocked. Bit i stands for group i.
#[derive(Clone, Copy)]
pub struct SetWords {
    pub er: u64,
    pub ir: u64,
    pub eb: u64,
    pub ib: u64,
}

// Why something is refused (docs/RULES.md, R14). A case holds its place where R14 has one that is not always 0.
#[derive(Clone, Copy)]
pub enum Refusal {
    // 1: a field is cut, or missing where one is wanted (R14.2).
    Cut(usize),
    // 2: a tag that has no meaning here (R14.3).
    UnknownTag(usize),
    // 3: a length that its tag does not have (R14.4).
    WrongLength(usize),
    // 4: a field that may not stand there (R14.5), or a byte behind the end (R14.6).
    OutOfOrder(usize),
    // 6: the weights up to this one sum to too much, told at its first byte (R14.12).
    WeightsOver(usize),
    // 7: too few bytes for what is to be made there (R14.13). Its place is 0.
    TableShort,
    // 10: no good table (R14.22).
    NotGood,
    // 11: the setup has no such lane (R14.23).
    NoLane,
    // 12: a length that the lane does not take (R14.24).
    BadLength,
    // 13: no room in the lane (R14.25).
    LaneFull,
    // 15: no restart, for a lane holds (R14.26).
    StillHolds,
    // 16: no record to hand out or to show (R14.27).
    NothingHeld,
    // 17: a limit that is too high, or an answer area that is too short for it (R14.14).
    RunBounds,
    // 18: more input than a program reads (R14.15).
    InputLong,
    // 50 to 54: a number of a setup outside its numbers, at its first byte (R14.7 to R14.11): a format that is neither 1 nor 2 ..
    FormatOutside(usize),
    // .. a lane over 63 ..
    LaneOutside(usize),
    // .. a weight that is not 1 to 1,024 ..
    WeightOutside(usize),
    // .. a longest that is not 64 to 1,500 ..
    LongestOutside(usize),
    // .. framing over 64.
    FramingOutside(usize),
    // 80: a byte with which no sheet of the form goes on (R14.18).
    WrongByte(usize),
    // 81: a sheet that is empty or ends in a line, at its length (R14.19).
    SheetCut(usize),
    // 82: a plan that a sheet cannot say (R14.21).
    NoSheet,
    // 70: a train that the lane does not know.
    NoTrain,
    // 71: the train's queue is full, in a shared lane.
    TrainFull,
}

// R3.23: what a call answers that is not refused. specs/Reads.antt gives the number and the values of each case.
#[derive(Clone, Copy)]
pub enum Answer {
    // How many records of its train the lane held before.
    Accepted(u64),
    Taken(Record),
    Seen(Record),
    Sets(SetWords),
    Lag(i64),
    Restarted,
}

// A refusal's number (R14.1). Each is below 256, so that a line with it is short.
impl From<Refusal> for u64 {
    ghost from_gives = { λ x n. (n ≡ number x) × (n < 256) };

    fn from(x: Refusal) -> u64 {
        match x {
            Refusal::Cut(_) => 1,
            Refusal::UnknownTag(_) => 2,
            Refusal::WrongLength(_) => 3,
            Refusal::OutOfOrder(_) => 4,
            Refusal::WeightsOver(_) => 6,
            Refusal::TableShort => 7,
            Refusal::NotGood => 10,
            Refusal::NoLane => 11,
            Refusal::BadLength => 12,
            Refusal::LaneFull => 13,
            Refusal::StillHolds => 15,
            Refusal::NothingHeld => 16,
            Refusal::RunBounds => 17,
            Refusal::InputLong => 18,
            Refusal::FormatOutside(_) => 50,
            Refusal::LaneOutside(_) => 51,
            Refusal::WeightOutside(_) => 52,
            Refusal::LongestOutside(_) => 53,
            Refusal::FramingOutside(_) => 54,
            Refusal::WrongByte(_) => 80,
            Refusal::SheetCut(_) => 81,
            Refusal::NoSheet => 82,
            Refusal::NoTrain => 70,
            Refusal::TrainFull => 71,
        }
    }
}
