// Which openings, steps and batches of a set are refused, and with which number: what all rules of a sheet need together, what an opening and a step are lent,
// and whether records are those of running rules.
#![tactic(auto)]

mod records;
mod sheet_figures;

// The cells that a set can have in all.
pub(crate) const MAX_CELLS: u64 = 4096;

pub use records::admit_records;
pub use sheet_figures::{SetFigures, admit_set, set_figures};
