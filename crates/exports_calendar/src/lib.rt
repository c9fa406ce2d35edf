// The library for C and Rust (include/station_watch.h), its functions that keep a flag calendar (document 02, point 5): opening and stepping with one beside the stream,
// and filling one from recorded flag bytes. Each that can be refused answers 0 or the refusal's number; a refused call changes nothing lent. proofs/Demand3.antt has the
// theorems about whole lists of calls.
#![tactic(auto)]

mod keeping;

pub use keeping::{
    sw_calendar_clear, sw_calendar_fill, sw_calendar_open, sw_calendar_step, sw_calendar_steps,
};
