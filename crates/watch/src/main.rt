// The program. Its files data/, stdin and stdout are the example of document 01, "Proving ground".
// Kept: the same main as the other crates watch and watch_*. A crate runs its program on one sheet and one input, so each case is a crate.
#![tactic(auto)]

fn main(rt: HostRuntime) {
    watch_run::watch(&rt);
}
