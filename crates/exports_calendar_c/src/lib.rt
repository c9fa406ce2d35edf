// The library for C and Rust (include/station_watch.h), its functions that keep a flag calendar: what C links. Each calls the function of the crate `exports_calendar` that has its name, and has its clauses.
#![tactic(auto)]

mod keeping;
