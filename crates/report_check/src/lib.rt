// Checking what another monitor claims (document 02, point 8): a list of violations beside the complete report of a recording. Each tick is evaluated once, and one of
// them a second time where the list is wrong: the ticks that the list names first, in its order, as long as it is right; then the others.
#![tactic(auto)]

mod agreeing;
mod marks;
mod missing;

ghost use Rattle.std.specs.Prelude.{◌≡◌, ◌≤◌, length, take};
ghost use Rattle.refusal.specs.Answer.{answer_of};
ghost use Rattle.nodes.specs.Table.{formula_in};
ghost use Rattle.complete_report.specs.Report.{complete, compared, checked_report};
ghost use Rattle.complete_report.specs.Lists.{violations_in};
ghost use Rattle.report_check.specs.Checking.{place};
ghost use Rattle.report_check.specs.Absent.{beside};

use crate::agreeing::agree;
use crate::marks::MARK_WORDS;
use crate::missing::first_missing;
use complete_report::{Comparison, VIOLATION_WORDS, Violation, before, violation_at};
use nodes::TABLE_WORDS;
use recorded_rule::Recorded;
use refusal::Refusal;

// How many of the first entries come before a violation.
#[tactic(auto, using(crate::proofs::Entries::not_before, crate::proofs::Entries::one_before, crate::proofs::Entries::placed_last))]
fn place_of(claimed: &[[u64; VIOLATION_WORDS]], count: usize, violation: Violation) -> usize
    requires { count ≤ length claimed.now }
    ensures { result ≡ place violation (take count (violations_in claimed.now)) }
{
    for index in 0..count {
        if !before(violation_at(claimed, index), violation) {
            return index;
        }
    }
    count
}

// A list beside a report of which the list's first entries are a part, and the first violation that they lack, if there is one.
fn comparison(
    claimed: &[[u64; VIOLATION_WORDS]],
    agreed: usize,
    missing: Option<Violation>,
) -> Comparison
    requires { agreed ≤ length claimed.now }
    ensures { result ≡ beside (violations_in claimed.now) agreed missing }
{
    match missing {
        Some(first) => Comparison::Differs(place_of(claimed, agreed, first), first),
        None if agreed < claimed.len() => Comparison::Ends(agreed),
        None => Comparison::Same,
    }
}

// The list beside the complete report of the rule in the table.
fn compare(recorded: &Recorded, claimed: &[[u64; VIOLATION_WORDS]]) -> Comparison
    ensures { result ≡ compared 0 (violations_in claimed.now) (complete (formula_in 64 recorded.now.nodes.now 0 0) recorded.now.recording.now) }
{
    let mut marks = [0u64; MARK_WORDS];
    let agreed = agree(recorded, claimed, &mut marks);
    let missing = first_missing(recorded, &marks);
    comparison(claimed, agreed, missing)
}

// Compares a list with the complete report of a sheet's rule over a recording: refusals 1 to 10, 23, 24, and 16 for a recording above 65,535 bytes.
#[tactic(auto, using(refusal::proofs::Answers::handed_on, recorded_rule::proofs::Admitted::recorded_short, crate::proofs::Checked::checks, crate::proofs::Checked::refuses))]
pub fn check(
    sheet: &[u8],
    rule: usize,
    recording: &[u8],
    claimed: &[[u64; VIOLATION_WORDS]],
) -> Result<Comparison, Refusal>
    ensures { answer_of result ≡ checked_report sheet.now rule recording.now (violations_in claimed.now) }
{
    let mut nodes = [0u32; TABLE_WORDS];
    recorded_rule::read_rule(sheet, rule, recording, &mut nodes)?;
    let recorded = Recorded {
        nodes: &nodes,
        recording,
    };
    Ok(compare(&recorded, claimed))
}
