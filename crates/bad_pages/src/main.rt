// Runs the good-table test on tables in which a settings page waits, good or bad by one condition at a time: its edition, its plan, and that a record is held.
// The file `stdout` has what is to be written, worked by hand.
//
// Each case is the same table (crate `base_table`) with four words of the page's part: the edition last taken, that of the page that waits, and of its plan the
// first word and that of lane 0.
#![tactic(auto)]

use base_table as base;
use std::io::Stdout;
use words::set_word;

// The page's part begins at byte 63,488.
const LAST: usize = 7936;

const NEW: usize = 7937;

const PLAN: usize = 7938;

const LANE_0: usize = 7939;

// Weight 16 and longest 1,500.
const LANE: u64 = 98304016;

fn page(t: &mut [u8], last: u64, new: u64, plan: u64, lane: u64) {
    if t.len() >= base::SIZE {
        set_word(t, LAST, last);
        set_word(t, NEW, new);
        set_word(t, PLAN, plan);
        set_word(t, LANE_0, lane);
    }
}

// A lane holds records.
fn held(out: Stdout, name: &[u8], last: u64, new: u64, plan: u64, lane: u64) {
    let mut t = [0u8; base::SIZE];
    base::base(&mut t);
    page(&mut t, last, new, plan, lane);
    base::say(out, name, &t);
}

// No lane holds one.
fn free(out: Stdout, name: &[u8], last: u64, new: u64, plan: u64, lane: u64) {
    let mut t = [0u8; base::SIZE];
    base::idle(&mut t);
    page(&mut t, last, new, plan, lane);
    base::say(out, name, &t);
}

fn editions(out: Stdout) {
    held(out, b"nothing waits", 0, 0, 0, 0);
    held(out, b"edition 65535 taken", 65535, 0, 0, 0);
    held(out, b"edition 65536 taken", 65536, 0, 0, 0);
    held(
        out,
        b"a plan that does not wait",
        3,
        0,
        18446744073709551615,
        18446744073709551615,
    );
    held(out, b"a page waits", 3, 4, 2, LANE);
    held(out, b"of the edition last taken", 4, 4, 2, LANE);
    held(out, b"of one before", 5, 4, 2, LANE);
    held(out, b"edition 65535 waits", 65534, 65535, 2, LANE);
    held(out, b"edition 65536 waits", 3, 65536, 2, LANE);
}

fn plans(out: Stdout) {
    held(out, b"format 0", 3, 4, 0, LANE);
    held(out, b"format 1", 3, 4, 1, LANE);
    held(out, b"format 3", 3, 4, 3, LANE);
    // 2 and 64, 65 times 2^16
    held(out, b"framing 64", 3, 4, 4194306, LANE);
    held(out, b"framing 65", 3, 4, 4259842, LANE);
    held(out, b"no lane", 3, 4, 2, 0);
}

fn lanes(out: Stdout) {
    held(out, b"weight 0", 3, 4, 2, 98304000);
    held(out, b"weight 1024", 3, 4, 2, 98305024);
    held(out, b"weight 1025", 3, 4, 2, 98305025);
    held(out, b"longest 63", 3, 4, 2, 4128784);
    held(out, b"longest 64", 3, 4, 2, 4194320);
    held(out, b"longest 1501", 3, 4, 2, 98369552);
    // bit 32 makes a lane shared
    held(out, b"shared", 3, 4, 2, 4393271312);
    held(out, b"a bit above", 3, 4, 2, 8688238608);
}

fn nothing_held(out: Stdout) {
    free(out, b"nothing waits, nothing held", 3, 0, 0, 0);
    free(out, b"a page waits, nothing held", 3, 4, 2, LANE);
}

fn main(rt: HostRuntime) {
    let out = rt.stdout();
    editions(out);
    plans(out);
    lanes(out);
    nothing_held(out);
}
