// The library for C and Rust (include/station_watch.h), its functions that run all rules of a sheet at once. Each answers 0 or a refusal's number; on a refusal
// nothing lent is changed, answers included. The records of the running rules are lent words, eight to a record, that each call looks at anew.
// proofs/Demand3.antt has the theorem about whole lists of calls.
#![tactic(auto)]

mod sets;

pub use sets::{sw_set_figures, sw_set_open, sw_set_step, sw_set_steps};
