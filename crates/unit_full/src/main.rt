// The unit's program on 32,768 bytes, the most that it reads: the first session (R16.3), and bytes after its end field.
#![tactic(auto)]

fn main(rt: HostRuntime) {
    console::serve(rt);
}
