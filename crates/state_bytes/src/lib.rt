// A state of the engine as 544 lent bytes: loading and storing it are inverse to each other (proofs/States.antt).
#![tactic(auto)]

mod number_bytes;
mod state;

// The bytes of a state.
pub const STATE_BYTES: usize = 544;

pub use state::{load, next_tick, store, store_progress};
