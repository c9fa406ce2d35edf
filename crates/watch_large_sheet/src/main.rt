// The program on a sheet of 32 rules, all but rule 0 of 512 bytes, whose bodies nobody reads. tests/oracle/watch.py made it and its stdout.
// Kept: the same main as the other crates watch and watch_*. A crate runs its program on one sheet and one input, so each case is a crate.
#![tactic(auto)]

fn main(rt: HostRuntime) {
    watch_run::watch(&rt);
}
