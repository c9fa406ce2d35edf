// Test cases from a text file, for the program that runs them. A line is a case: its name, and behind a bar each what the program asks for; a bar has a
// blank on each side. Bytes are two hexadecimal digits in small letters, with blanks between them as one likes; `02*63` is 63 times the byte 02. A line
// that is empty or begins with `#` is no case.
#![tactic(auto)]

mod bytes_of;
mod fields;
mod file;
mod lines;
mod number;

pub use bytes_of::{Malformed, read_bytes};
pub use fields::{is_case, past_bar, split_bar, split_name, to_bar};
pub use file::{load, say_malformed};
pub use lines::{Lines, lines_of};
pub use number::split_number;
