// The engine: opening a rule of a sheet, and stepping it by one flag byte or by many. proofs/Demand3.antt has the theorem about whole lists of calls.
#![tactic(auto)]

mod opening;
mod state;
mod stepping;

pub use opening::open;
pub use state::State;
pub use stepping::{step, steps};
