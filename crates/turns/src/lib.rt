// One shared lane, by deficit round robin: what a put and a hand-out make of the numbers that the lane is kept in
// (specs/Turns.antt has their parts). There is no loop over the trains: going to the end of the round is one shift and one addition.
//
// These functions know no table: they get the numbers of the train at hand and of the round, and give both back. The records themselves
// stay in the lane's places. They are inner functions: a `requires` says what a good lane gives (proofs/Good.antt has the laws for it).
//
// Units: deficits and lengths count bare bytes, without framing.
#![tactic(auto)]

ghost use Rattle.std.specs.Prelude.{◌≡◌, ◌*◌, ◌^◌, ◌<◌, ◌≤◌};
ghost use Rattle.rounds.specs.Round.{train_count, train_depth};
ghost use Rattle.turns.specs.Turns.{count_of, deficit_of, named_of, Ordered, NamesTrains, Light, Puts, HandsOutTurn};

// Each train has a queue of 8 places.
pub const TRAIN_DEPTH: u64 = 8;

// Where count and deficit begin in a train's number, after the head.
pub const COUNT_UNIT: u64 = 8;

pub const DEFICIT_UNIT: u64 = 128;

// Where the number of trains begins in the round's number, after their order; each takes four bits of it.
pub const NAMED_UNIT: u64 = 4294967296;

pub const ORDER_UNIT: u64 = 16;

// A train's number and the round's, and whether the turn of the train that the round now names first begins.
#[derive(Clone, Copy)]
pub struct Change {
    pub train: u64,
    pub round: u64,
    pub begins: bool,
}

// 16^n: the worth of place n of the round.
fn place_worth(n: u32) -> u64
    requires { n ≤ 7 }
    ensures { (result ≡ 16 ^ n) × (result ≤ 2 ^ 28) }
{
    1u64 << (4 * n)
}

// A record more for train `k`, which has room: `train` is its number. A train that held nothing goes to the end of the round; in an empty lane its
// turn begins at once.
pub fn put(train: u64, round: u64, k: u64, longest: u64) -> Change
    requires { (k < train_count) × Light train × (count_of train < train_depth) × Ordered round × (count_of train ≡ 0 → named_of round < train_count) × (longest ≤ 1500) }
    ensures { Puts longest train round k result }
{
    let count = train / COUNT_UNIT % 16;
    let named = round / NAMED_UNIT;
    let more = train + COUNT_UNIT;
    if count != 0 {
        return Change {
            train: more,
            round: round,
            begins: false,
        };
    }
    if named == 0 {
        return Change {
            train: more + DEFICIT_UNIT * longest,
            round: NAMED_UNIT + k,
            begins: false,
        };
    }
    Change {
        train: more,
        round: round + NAMED_UNIT + k * place_worth(named as u32),
        begins: false,
    }
}

// The chosen record, of `length`, is handed out: `train` is the number of the train in turn, and `next` the length of the record behind it.
pub fn hand_out(train: u64, round: u64, length: u64, next: u64) -> Change
    requires { Light train × (0 < count_of train) × (length ≤ deficit_of train) × Ordered round × NamesTrains round × (0 < named_of round) }
    ensures { HandsOutTurn train round length next result }
{
    let head = (train + 1) % TRAIN_DEPTH;
    let count = train / COUNT_UNIT % 16;
    let order = round % NAMED_UNIT;
    let named = round / NAMED_UNIT;
    let rest = order / ORDER_UNIT;
    if count == 1 {
        return Change {
            train: head,
            round: rest + NAMED_UNIT * (named - 1),
            begins: named != 1,
        };
    }
    let left = train / DEFICIT_UNIT - length;
    let fewer = head + COUNT_UNIT * (count - 1) + DEFICIT_UNIT * left;
    if next <= left {
        return Change {
            train: fewer,
            round: round,
            begins: false,
        };
    }
    Change {
        train: fewer,
        round: rest + (order % ORDER_UNIT) * place_worth((named - 1) as u32) + NAMED_UNIT * named,
        begins: true,
    }
}
