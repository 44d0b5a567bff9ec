// The unit's program on examples/framed.txt: a session on a line with 20 framing bytes.
#![tactic(auto)]

fn main(rt: HostRuntime) {
    console::serve(rt);
}
