// The library for C and Rust (include/station_watch.h), its functions that watch a stream: opening a rule, and stepping it by one flag byte or by many.
// Each answers 0 or a refusal's number; on a refusal nothing lent is changed, answers included. A state is 544 bytes that the caller lends and each
// call looks at anew. proofs/Demand3.antt has the theorem about whole lists of calls; `exports_rules` has the functions on sheets, bodies and texts.
#![tactic(auto)]

mod watching;

pub use watching::{sw_open, sw_step, sw_steps};
