// The program `setup_sheet` on a setup with framing bytes, which a sheet cannot say: `no 82`.
#![tactic(auto)]

fn main(rt: HostRuntime) {
    depot::serve_sheet(rt);
}
