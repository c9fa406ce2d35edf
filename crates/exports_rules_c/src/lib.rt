// The library for C and Rust (include/station_watch.h), its functions on sheets, bodies, recordings, rules as text and refusals: what C links. Each calls the function of the crate `exports_rules` that has its name, and has its clauses.
#![tactic(auto)]

mod bodies;
mod rules;
mod sentences;
mod sheets;
