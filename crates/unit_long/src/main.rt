// The unit's program on 32,769 bytes, one more than it reads.
#![tactic(auto)]

fn main(rt: HostRuntime) {
    console::serve(rt);
}
