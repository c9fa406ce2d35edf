// The library for C and Rust (include/station_watch.h), its four questions about a flag calendar (document 02, point 5). Each answers 0 or the refusal's number; a
// refused call changes nothing lent.
#![tactic(auto)]

mod questions;

pub use questions::{sw_calendar_first, sw_calendar_last, sw_calendar_nearest, sw_calendar_ups};
