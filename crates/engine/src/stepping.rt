// Stepping an opened rule by one flag byte, or by many.
ghost use Rattle.demand.specs.Contract.{step_of, batch_of, StepPromise, BatchPromise};
ghost use Rattle.instances.specs.Answers.{step_answer, batch_answer};
ghost use Rattle.cell_runs.specs.Moves.{Stands};
ghost use Rattle.engine.specs.States.{state_of, by_value};

use crate::state::State;
use instances::{BatchCounts, StepCounts, take_batch, take_step};
use refusal::Refusal;

// Takes one flag byte: starts the instance of this tick, moves all live ones, writes the ticks that are false at this step into the report, and
// stores the byte in the history, last. A refusal changes nothing.
pub fn step(
    state: &mut State,
    flag: u8,
    history: &mut [u8],
    cells: &mut [u32],
    report: &mut [u64],
) -> Result<StepCounts, Refusal>
    ensures { StepPromise Stands by_value state.old (step_of (step_answer (state_of state.old) result) flag history.old cells.old report.old history.new cells.new report.new) state.new }
{
    let body = state.rule_body()?;
    let tick = state.next;
    let counts = take_step(body, state.opened, tick, history, flag, cells, report)?;
    state.next = tick + 1;
    state.live = counts.live;
    Ok(counts)
}

// Takes flag bytes one after another, each as `step` does, and reads the rule once. The report gets pairs of a tick and the step that decided it, end to
// end. It stops before a step for which fewer than 2 * (delay + 1) report words are left, and where the tick numbers end. A refusal changes nothing.
pub fn steps(
    state: &mut State,
    flags: &[u8],
    history: &mut [u8],
    cells: &mut [u32],
    report: &mut [u64],
) -> Result<BatchCounts, Refusal>
    ensures { BatchPromise Stands by_value state.old (batch_of (batch_answer (state_of state.old) result) flags.now history.old cells.old report.old history.new cells.new report.new) state.new }
{
    let body = state.rule_body()?;
    let tick = state.next;
    let live = state.live;
    let batch = take_batch(
        body,
        state.opened,
        tick,
        live,
        flags,
        history,
        cells,
        report,
    )?;
    state.next = tick + batch.taken as u64;
    state.live = batch.live;
    Ok(batch)
}
