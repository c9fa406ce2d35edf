// How far a list agrees with the report: its first entries that ascend and are violations.
ghost use Rattle.std.specs.Prelude.{◌≡◌, true, length, get_or, take};
ghost use Rattle.nodes.specs.Table.{formula_in};
ghost use Rattle.complete_report.specs.Lists.{violations_in, none_lent};
ghost use Rattle.complete_report.specs.FalseSteps.{false_step};
ghost use Rattle.report_check.specs.Checking.{is_violation, above_at, agreed};
ghost use Rattle.report_check.specs.Marks.{all_marked};

use crate::marks::mark;
use complete_report::{VIOLATION_WORDS, Violation, before, violation_at};
use recorded_rule::Recorded;

// Whether this is a violation of the rule in the table. A step past the recording's end is none's, and then the tick is not evaluated.
#[tactic(auto, using(crate::proofs::FirstOf::same_step), unfolding(crate::specs::Checking::is_violation))]
fn is_violation(recorded: &Recorded, claimed: Violation) -> bool
    ensures { result ≡ is_violation (false_step (formula_in 64 recorded.now.nodes.now 0 0) recorded.now.recording.now) (length recorded.now.recording.now) claimed }
{
    claimed.step < recorded.recording.len() as u64
        && recorded.false_step(claimed.tick as usize) == Some(claimed.step)
}

// Whether an entry comes after the one before it.
#[tactic(auto, using(crate::proofs::Entries::at_first, crate::proofs::Entries::at_later))]
fn ascends(claimed: &[[u64; VIOLATION_WORDS]], index: usize) -> bool
    ensures { result ≡ above_at (violations_in claimed.now) index (get_or (violations_in claimed.now) index none_lent) }
{
    index == 0
        || before(
            violation_at(claimed, index - 1),
            violation_at(claimed, index),
        )
}

// How many of the list's first entries ascend and are violations; their ticks are marked.
pub(crate) fn agree(
    recorded: &Recorded,
    claimed: &[[u64; VIOLATION_WORDS]],
    marks: &mut [u64],
) -> usize
    ensures value { result ≡ agreed (false_step (formula_in 64 recorded.now.nodes.now 0 0) recorded.now.recording.now) (length recorded.now.recording.now) (λ any. true) (violations_in claimed.now) }
    ensures marks_after { marks.new ≡ all_marked marks.old (take result (violations_in claimed.now)) }
{
    for index in 0..claimed.len() {
        let next = violation_at(claimed, index);
        if !ascends(claimed, index) || !is_violation(recorded, next) {
            return index;
        }
        mark(marks, next.tick);
    }
    claimed.len()
}
