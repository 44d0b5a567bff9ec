// Runs the good-table test on tables whose slot lists are damaged in one way at a time, and on tables with anything in the words that mean nothing. The
// file `stdout` has what is to be written, worked by hand.
//
// Each case changes the same table (crate `base_table`).
#![tactic(auto)]

mod lists;
mod slots;
mod unread;

fn main(rt: HostRuntime) {
    let out = rt.stdout();
    lists::twice(out);
    lists::elsewhere(out);
    lists::no_lane(out);
    lists::left_out(out);
    lists::starts(out);
    lists::marks(out);
    lists::groups(out);
    lists::numbers(out);
    slots::turns(out);
    slots::places(out);
    slots::carried(out);
    slots::taken_back(out);
    slots::taken_back_far(out);
    unread::words(out);
    unread::marks(out);
    unread::kept(out);
    unread::lists(out);
}
