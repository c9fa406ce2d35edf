// The library for C and Rust (include/station_watch.h), its functions that run all rules of a sheet: what C links. Each calls the function of the crate `exports_sets` that has its name, and has its clauses.
#![tactic(auto)]

mod sets;
