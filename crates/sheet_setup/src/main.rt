// The depot's program from a text sheet, on standard input, to the bytes of a setup, on standard output.
#![tactic(auto)]

fn main(rt: HostRuntime) {
    depot::serve_setup(rt);
}
