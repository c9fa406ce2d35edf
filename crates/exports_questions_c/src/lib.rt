// The library for C and Rust (include/station_watch.h), its questions to a flag calendar: what C links. Each calls the function of the crate `exports_questions` that has its name, and has its clauses.
#![tactic(auto)]

mod questions;
