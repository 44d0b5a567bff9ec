// Converts tables of 16 places in a lane, at the edges of the rule for them, and takes from what they became. The file `stdout` has what is to be
// written, worked by hand.
//
// The tables are written word by word and byte by byte from the layout of that time, and not by the library's own functions (bytes.rt). Of a refused
// case the new bytes are looked at: none is changed. Of a converted one the bytes past the table are.
#![tactic(auto)]

mod bytes;
mod over;
mod refused;
mod taken_over;

fn main(rt: HostRuntime) {
    let out = rt.stdout();
    taken_over::session(out);
    taken_over::sixteen(out);
    taken_over::wrapped(out);
    taken_over::tie(out);
    taken_over::finishes(out);
    taken_over::framed(out);
    taken_over::spare(out);
    taken_over::longer(out);
    taken_over::clock(out);
    refused::room(out);
    refused::cut(out);
    refused::records(out);
    refused::rows(out);
    refused::groups(out);
    refused::times(out);
    refused::lists(out);
    refused::lanes(out);
}
