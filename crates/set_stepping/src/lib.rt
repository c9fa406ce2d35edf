// Stepping a set: each flag byte is taken once, by all its running rules.
#![tactic(auto)]

mod batch;
mod pairs;
mod rules;
mod stepping;

pub use batch::{SetBatchCounts, steps};
pub use stepping::step;
