// Questions to a flag calendar (document 02, point 5), answered from its words alone, one word at a time. `calendar` has the definitions.
#![tactic(auto)]

mod flag_words;
mod masked;
mod nearing;
mod questions;
mod seeking;
mod tallying;

pub use questions::{first_up, last_up, nearest_up, ups};
