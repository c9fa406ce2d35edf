// The recording evaluator: a body's outcome at a tick of a recording.
#![tactic(auto)]

mod alike;
mod env;
mod evaluate;

ghost use Rattle.std.specs.Prelude.{◌≡◌};
ghost use Rattle.refusal.specs.Answer.{answer_of};
ghost use Rattle.rule.specs.Recording.{over_recording, recording_outcome};
ghost use Rattle.nodes.specs.Table.{formula_in};

use crate::env::Env;
use crate::evaluate::Over;
use nodes::{FORMULAS, TABLE_WORDS};
use refusal::Refusal;
use rule::Outcome;

// The outcome at a tick of the formula whose table is filled.
pub fn over_recording(
    nodes: &[u32; TABLE_WORDS],
    recording: &[u8],
    tick: usize,
) -> Result<Outcome, Refusal>
    ensures { answer_of result ≡ over_recording (formula_in 64 nodes.now 0 0) recording.now tick }
{
    if 65535 < recording.len() || recording.len() <= tick {
        return Err(Refusal::NotInRecording);
    }
    let over = Over {
        nodes,
        recording,
        t: (recording.len() - 1) as u64,
    };
    let p = tick as u64;
    Ok(over.evaluate(FORMULAS as u64, 0, Env::at_tick(p), p))
}

// The outcome of a body at a tick of a recording, or a refusal: 4 to 10, 23 and 24 for the body, 16 for the recording and the tick. The body may be one
// that the engine refuses to open.
pub fn outcome_at(body: &[u8], recording: &[u8], tick: usize) -> Result<Outcome, Refusal>
    ensures { answer_of result ≡ recording_outcome body.now recording.now tick }
{
    let mut nodes = [0u32; TABLE_WORDS];
    reader::read_body(body, &mut nodes)?;
    over_recording(&nodes, recording, tick)
}
