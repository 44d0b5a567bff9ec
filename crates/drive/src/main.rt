// Drives the public calls and prints what they answer, and some words of the table. The file `stdout` has what is to be written; expected.py of the crate
// `driven` works it out from the rules, and knows nothing of this program but the list of its calls. The program `drive_edges` has what lies further
// off: the clock taken back, tables that are not good, and shared lanes.
#![tactic(auto)]

mod refusals;
mod session;

fn main(rt: HostRuntime) {
    let out = rt.stdout();
    session::session(out);
    session::one_lane(out);
    session::four_groups(out);
    session::blocked_groups(out);
    refusals::making(out);
    refusals::calls(out);
    refusals::full(out);
    refusals::sizes(out);
}
