// The program on "flag 0 at X+1 beside flag 1 at X+3" and a stream that ends at a step which makes an older tick true and another false, while two ticks
// stay open: only these are live.
// Kept: the same main as the other crates watch and watch_*. A crate runs its program on one sheet and one input, so each case is a crate.
#![tactic(auto)]

fn main(rt: HostRuntime) {
    watch_run::watch(&rt);
}
