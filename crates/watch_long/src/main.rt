// The program on a rule with history 12 and delay 10 and 100,000 flag bytes. tests/oracle/watch.py made all its files from the papers alone.
// Kept: the same main as the other crates watch and watch_*. A crate runs its program on one sheet and one input, so each case is a crate.
#![tactic(auto)]

fn main(rt: HostRuntime) {
    watch_run::watch(&rt);
}
