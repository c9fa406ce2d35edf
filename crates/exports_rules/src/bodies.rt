// A body's figures, and its outcome at a tick of a recording.
ghost use Rattle.std.specs.Prelude.{◌≡◌};
ghost use Rattle.refusal.specs.Answer.{or_kept, number};
ghost use Rattle.rule.specs.Figures.{body_figures};
ghost use Rattle.rule.specs.Recording.{recording_outcome};
ghost use Rattle.exports_rules.specs.Outcomes.{verdict_number, step_number};

use rule::{Outcome, Verdict};

// The figures of a body: refusals 4 to 15, 23, 24.
pub fn sw_figures(body: &[u8], history: &mut u64, delay: &mut u64, cells: &mut u64) -> u32
    ensures value { result ≡ number (body_figures body.now) }
    ensures history_after { history.new ≡ or_kept (λ figures. figures.history) (body_figures body.now) history.old }
    ensures delay_after { delay.new ≡ or_kept (λ figures. figures.delay) (body_figures body.now) delay.old }
    ensures cells_after { cells.new ≡ or_kept (λ figures. figures.cells) (body_figures body.now) cells.old }
{
    match figures::figures(body) {
        Ok(figures) => {
            *history = figures.history;
            *delay = figures.delay;
            *cells = figures.cells;
            0
        }
        Err(refusal) => refusal::number(refusal),
    }
}

fn verdict_number(outcome: Outcome) -> u32
    ensures { result ≡ verdict_number outcome }
{
    match outcome {
        Outcome::Decided(Verdict::True, _) => 1,
        Outcome::Decided(Verdict::False, _) => 2,
        Outcome::Open => 0,
    }
}

fn step_number(outcome: Outcome) -> u64
    ensures { result ≡ step_number outcome }
{
    match outcome {
        Outcome::Decided(_, step) => step,
        Outcome::Open => 0,
    }
}

// The outcome of a body at a tick of a recording: refusals 4 to 10, 23, 24, 16.
pub fn sw_outcome(
    body: &[u8],
    recording: &[u8],
    tick: usize,
    verdict: &mut u32,
    step: &mut u64,
) -> u32
    ensures value { result ≡ number (recording_outcome body.now recording.now tick) }
    ensures verdict_after { verdict.new ≡ or_kept verdict_number (recording_outcome body.now recording.now tick) verdict.old }
    ensures step_after { step.new ≡ or_kept step_number (recording_outcome body.now recording.now tick) step.old }
{
    match recording::outcome_at(body, recording, tick) {
        Ok(outcome) => {
            *verdict = verdict_number(outcome);
            *step = step_number(outcome);
            0
        }
        Err(refusal) => refusal::number(refusal),
    }
}
