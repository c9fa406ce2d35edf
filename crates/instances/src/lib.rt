// The instances of a rule, each in its own run of cells, moved by one tick at a time: for one step, or for each of many flag bytes.
#![tactic(auto)]

mod advance;
mod batch;
mod flags;
mod head;
mod instances;
mod marks;
mod stepping;

pub use batch::{BatchCounts, take_batch};
pub use stepping::{StepCounts, take_step, take_tick};
