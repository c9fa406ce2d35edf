// Where the pieces of a rule's text end. No function asks anything of a position: beyond the text there is nothing to read.
#![tactic(auto)]

mod bounds;
mod names;
mod pieces;
mod scan;
mod start;

pub use bounds::{base_end, bound_end};
pub use names::is_word;
pub use pieces::{Piece, joint_end, piece_at};
pub use scan::{is_between, run_end, starts_at};
pub use start::rule_start;
