// What the words of a cell say, four words of a rule's table: an outcome in two of them, or the head of a range.
#![tactic(auto)]

mod head;
mod outcome;

pub use head::{Head, head_of};
pub use outcome::{elapsed, outcome_of, step_after};

// The words of a cell.
pub const CELL_WORDS: usize = 4;

// How many numbers a word can hold.
pub const WORD_VALUES: u64 = 4294967296;
