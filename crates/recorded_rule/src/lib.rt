// A sheet's rule over a recording: reading it, and the step at which it is false at a tick.
#![tactic(auto)]

mod recorded;

ghost use Rattle.std.specs.Prelude.{◌≡◌, length};
ghost use Rattle.nodes.specs.Table.{formula_in};
ghost use Rattle.reader.specs.Decoded.{reading_answer};
ghost use Rattle.complete_report.specs.Report.{recorded_rule};
ghost use Rattle.complete_report.specs.FalseSteps.{false_step, step_below};
ghost use Rattle.recorded_rule.specs.Violated.{violated_at};

use nodes::TABLE_WORDS;
pub use recorded::Recorded;
use refusal::Refusal;
use rule::{Outcome, Verdict};

// The longest recording, 01's limit.
pub const MAX_RECORDING: usize = 65535;

// Reads a rule of a sheet for a recording into the node table: refusals 1 to 10, 23, 24, and 16 for a recording above 65,535 bytes.
#[tactic(auto, using(refusal::proofs::Answers::handed_on, crate::proofs::Admitted::no_rule, crate::proofs::Admitted::no_body, crate::proofs::Admitted::too_long, crate::proofs::Admitted::short_enough))]
pub fn read_rule(
    sheet: &[u8],
    rule: usize,
    recording: &[u8],
    nodes: &mut [u32; TABLE_WORDS],
) -> Result<(), Refusal>
    ensures { reading_answer result nodes.new ≡ recorded_rule sheet.now rule recording.now }
{
    let body = sheet::body_in(sheet, rule)?;
    reader::read_body(body, nodes)?;
    if MAX_RECORDING < recording.len() {
        return Err(Refusal::NotInRecording);
    }
    Ok(())
}

// The step of a violation; none for any other outcome.
fn step_of(outcome: Outcome) -> Option<u64>
    ensures { result ≡ violated_at outcome }
{
    match outcome {
        Outcome::Decided(Verdict::False, step) => Some(step),
        Outcome::Decided(Verdict::True, _) | Outcome::Open => None,
    }
}

// The step at which the rule in the table is false at a tick of the recording; none where the tick is no violation.
#[tactic(auto, using(crate::proofs::Admitted::step_answered, crate::proofs::Admitted::step_refused))]
pub fn false_step(nodes: &[u32; TABLE_WORDS], recording: &[u8], tick: usize) -> Option<u64>
    ensures { result ≡ step_below (length recording.now) (false_step (formula_in 64 nodes.now 0 0) recording.now tick) }
{
    match recording::over_recording(nodes, recording, tick) {
        Ok(outcome) => step_of(outcome),
        Err(_) => None,
    }
}
