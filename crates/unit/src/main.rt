// The unit's program: a session on standard input, its answer lines on standard output.
#![tactic(auto)]

fn main(rt: HostRuntime) {
    console::serve(rt);
}
