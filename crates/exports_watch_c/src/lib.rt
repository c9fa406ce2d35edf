// The library for C and Rust (include/station_watch.h), its functions that watch a stream: what C links. Each calls the function of the crate `exports_watch` that has its name, and has its clauses.
#![tactic(auto)]

mod watching;
