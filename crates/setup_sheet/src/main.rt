// The depot's program from a setup, on standard input, to a text sheet, on standard output.
#![tactic(auto)]

fn main(rt: HostRuntime) {
    depot::serve_sheet(rt);
}
