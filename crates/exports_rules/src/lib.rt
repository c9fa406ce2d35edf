// The library for C and Rust (include/station_watch.h), its functions on sheets, bodies, recordings, rules as text and refusals: numbers and lent slices.
// Each answers 0 or a refusal's number; on a refusal nothing lent is changed, answers included. `exports_watch` has those that watch a stream.
#![tactic(auto)]

mod bodies;
mod rules;
mod sentences;
mod sheets;

pub use bodies::{sw_figures, sw_outcome};
pub use rules::{sw_rule_from_text, sw_rule_to_text};
pub use sentences::sw_sentence;
pub use sheets::{sw_rule_place, sw_write_sheet};
