// Drives the public calls where the clock is taken back, on tables that are not good, and in shared lanes, and prints what they answer. The file `stdout`
// has what is to be written, as that of the program `drive`.
#![tactic(auto)]

mod damage;
mod far;
mod trains;

fn main(rt: HostRuntime) {
    let out = rt.stdout();
    far::at_last(out);
    far::taken_back(out);
    far::groups(out);
    damage::damaged(out);
    damage::idle_places(out);
    trains::turns(out);
    trains::refused(out);
    trains::full(out);
    trains::damaged(out);
}
