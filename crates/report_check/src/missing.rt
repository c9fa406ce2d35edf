// The first violation, in the order of a report, that was not met.
ghost use Rattle.std.specs.Prelude.{◌≡◌, length};
ghost use Rattle.nodes.specs.Table.{formula_in};
ghost use Rattle.complete_report.specs.Report.{violation};
ghost use Rattle.complete_report.specs.FalseSteps.{false_step};
ghost use Rattle.report_check.specs.Absent.{some_below, earlier_of};
ghost use Rattle.report_check.specs.Checking.{missing_at, first_missing};
ghost use Rattle.report_check.specs.Marks.{is_marked};

use crate::marks::is_marked;
use complete_report::{Violation, before};
use recorded_rule::Recorded;

// The violation of a tick that is not marked.
#[tactic(auto, using(crate::proofs::FirstOf::met_is_none, crate::proofs::FirstOf::step_is_some, crate::proofs::FirstOf::step_is_none))]
fn unmarked(recorded: &Recorded, marks: &[u64], tick: usize) -> Option<Violation>
    ensures { result ≡ some_below (length recorded.now.recording.now) (missing_at (false_step (formula_in 64 recorded.now.nodes.now 0 0) recorded.now.recording.now) (length recorded.now.recording.now) (is_marked marks.now) tick) }
{
    if is_marked(marks, tick as u64) {
        return None;
    }
    let step = recorded.false_step(tick)?;
    let tick = tick as u64;
    Some(Violation { tick, step })
}

// The one that comes first in a report, of those that are there.
fn earlier(first: Option<Violation>, second: Option<Violation>) -> Option<Violation>
    ensures { result ≡ earlier_of first second }
{
    match (first, second) {
        (Some(one), Some(other)) if before(one, other) => first,
        (Some(_), None) => first,
        _ => second,
    }
}

// The first violation whose tick is not marked.
pub(crate) fn first_missing(recorded: &Recorded, marks: &[u64]) -> Option<Violation>
    ensures { result ≡ some_below (length recorded.now.recording.now) (first_missing (false_step (formula_in 64 recorded.now.nodes.now 0 0) recorded.now.recording.now) (length recorded.now.recording.now) (is_marked marks.now) (length recorded.now.recording.now) (violation (length recorded.now.recording.now) (length recorded.now.recording.now))) }
{
    let mut first = None;
    for tick in (0..recorded.recording.len()).rev() {
        first = earlier(unmarked(recorded, marks, tick), first);
    }
    first
}
