// Runs the good-table test on tables that are good or bad by one condition of a good table (docs/RULES.md, R6) at a time: those of the lanes and the clock, and
// those of a shared lane (R18.8, R18.9). The program `bad_lists` has those of the slot lists. The file `stdout` has what is to be written, worked by hand.
//
// Each case changes one condition of the same table (crate `base_table`). Where a lane's S or group changes, its slot list goes along, so that the lists
// are not what fails.
#![tactic(auto)]

mod clock;
mod lanes;
mod sizes;
mod trains;

fn main(rt: HostRuntime) {
    let out = rt.stdout();
    sizes::sizes(out);
    lanes::settings(out);
    lanes::sums(out);
    lanes::rates(out);
    lanes::rates_unread(out);
    lanes::present(out);
    lanes::depths(out);
    lanes::lengths(out);
    lanes::places(out);
    lanes::places_unread(out);
    lanes::rings(out);
    lanes::ring_over(out);
    clock::edges(out);
    clock::starts(out);
    clock::idles(out);
    clock::idle_slots(out);
    clock::lowest_slots(out);
    clock::eligible(out);
    clock::framings(out);
    clock::framed(out);
    trains::lanes(out);
    trains::empty(out);
    trains::in_turn(out);
    trains::waiting(out);
    trains::counts(out);
    trains::named(out);
    trains::rounds(out);
    trains::unread(out);
}
