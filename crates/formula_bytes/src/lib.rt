// One formula's own bytes, without its parts: the first of their refusals, 4 to 9, 23 or 24.
#![tactic(auto)]

mod bounds;
mod checks;

pub use checks::head_check;
