// The unit's program on no input at all: no byte stands where the setup's first tag is wanted.
#![tactic(auto)]

fn main(rt: HostRuntime) {
    console::serve(rt);
}
