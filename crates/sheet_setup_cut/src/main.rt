// The program `sheet_setup` on a sheet that is cut in its last line: `no 81`, at the sheet's length.
#![tactic(auto)]

fn main(rt: HostRuntime) {
    depot::serve_setup(rt);
}
