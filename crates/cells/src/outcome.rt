// An outcome in two words of a cell. Steps are counted from the rule's own tick p, so that they fit a word of 32 bits however high ticks
// are.
ghost use Rattle.std.specs.Prelude.{◌≡◌};
ghost use Rattle.cells.specs.Cells.{since, step_after, held};

use crate::WORD_VALUES;
use rule::{FIRST_UNTAKEN, Outcome, Verdict};

// A step counted from p.
pub fn elapsed(p: u64, step: u64) -> u32
    ensures { result ≡ since p step }
{
    (step.saturating_sub(p) % WORD_VALUES) as u32
}

// The step that comes so many steps after p. No sum overflows: a tick that no step takes counts as the first such one.
pub fn step_after(p: u64, steps: u32) -> u64
    ensures { result ≡ step_after p steps }
{
    p.min(FIRST_UNTAKEN) + u64::from(steps)
}

// The outcome that two words of a cell hold.
#[tactic(auto, unfolding(crate::specs::Cells::held))]
pub fn outcome_of(verdict: u32, steps: u32, p: u64) -> Outcome
    ensures { result ≡ held p verdict steps }
{
    match verdict {
        1 => Outcome::Decided(Verdict::True, step_after(p, steps)),
        2 => Outcome::Decided(Verdict::False, step_after(p, steps)),
        _ => Outcome::Open,
    }
}
