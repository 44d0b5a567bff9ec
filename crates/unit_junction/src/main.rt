// The unit's program on examples/junction.txt: a session in which trains share a lane.
#![tactic(auto)]

fn main(rt: HostRuntime) {
    console::serve(rt);
}
