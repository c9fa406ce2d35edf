// Which openings and steps are refused, and with which number, in 01's order: an opening of a body with 4 to 15, 23, 24, 17 and 18, a step with 17 to 21;
// and how many flags the tick numbers leave (flags_left).
#![tactic(auto)]

ghost use Rattle.std.specs.Prelude.{◌≡◌, ◌-◌, min};
ghost use Rattle.refusal.specs.Answer.{answer_of, and_then};
ghost use Rattle.rule.specs.Figures.{body_figures};
ghost use Rattle.demand.specs.Contract.{room, fit_opened};
ghost use Rattle.admission.specs.Admitted.{FiguresWithin, Admitted};

use figure_limits::clear_if_refused;
use nodes::{TABLE_WORDS, clear};
use refusal::Refusal;
use rule::{FIRST_UNTAKEN, Figures, MAX_HISTORY};

// The bytes that a history can have at most.
const LONGEST_HISTORY: usize = MAX_HISTORY as usize;

// The opening of a rule with these figures: its history must have from the figure's bytes up to 4,096, and its table the needed cells.
#[tactic(auto, unfolding(demand::specs::Contract::room, demand::specs::Contract::must))]
fn fit_opening(figures: Figures, history: usize, table: usize) -> Result<Figures, Refusal>
    requires { FiguresWithin figures }
    ensures { answer_of result ≡ room history table figures }
{
    let least = figures.history as usize;
    if history < least || LONGEST_HISTORY < history {
        return Err(Refusal::HistoryLength);
    }
    let needed = 4 * figures.cells as usize;
    if table < needed {
        return Err(Refusal::CellTableTooShort);
    }
    Ok(figures)
}

// The figures with which a rule's body is opened over a history and a cell table of these lengths, or a refusal: 4 to 15, 23, 24,
// 17, 18.
pub fn admit_opening(body: &[u8], history: usize, table: usize) -> Result<Figures, Refusal>
    ensures { answer_of result ≡ and_then (body_figures body.now) (room history table) }
{
    let figures = figures::figures(body)?;
    fit_opening(figures, history, table)
}

// What a step has: the bytes with which its history was opened, L, the tick to be taken, and the lengths of the history, the cell table and the report that it is
// lent.
#[derive(Clone, Copy, Debug, PartialEq, Eq)]
pub struct Lent {
    pub opened: usize,
    pub tick: u64,
    pub history: usize,
    pub table: usize,
    pub report: usize,
}

impl Lent {
    // The step of a rule with these figures: refusals 21, for an opened length below the figure, and 17 to 20.
    #[tactic(auto, unfolding(demand::specs::Contract::fit_opened, demand::specs::Contract::fit_lengths, demand::specs::Contract::must))]
    fn fit(self, figures: Figures) -> Result<Figures, Refusal>
        requires { FiguresWithin figures }
        ensures { answer_of result ≡ fit_opened figures self.opened self.tick self.history self.table self.report }
    {
        let least = figures.history as usize;
        if self.opened < least {
            return Err(Refusal::StateNotOpened);
        }
        if self.history != self.opened {
            return Err(Refusal::HistoryLength);
        }
        let needed = 4 * figures.cells as usize;
        if self.table < needed {
            return Err(Refusal::CellTableTooShort);
        }
        let words = figures.delay as usize + 1;
        if self.report < words {
            return Err(Refusal::ReportTooShort);
        }
        if FIRST_UNTAKEN <= self.tick {
            return Err(Refusal::TicksUsedUp);
        }
        Ok(figures)
    }
}

// The figures with which a step goes on, or a refusal: 21, 17 to 20. The body's node table, with its sizes, is left in `nodes`; a refusal
// leaves it all 0.
#[tactic(auto, using(crate::proofs::Admits::step_above))]
pub fn admit_step(
    body: &[u8],
    lent: Lent,
    nodes: &mut [u32; TABLE_WORDS],
) -> Result<Figures, Refusal>
    ensures { Admitted body.now lent.opened lent.tick lent.history lent.table lent.report result nodes.new }
{
    if LONGEST_HISTORY < lent.opened {
        clear(nodes);
        return Err(Refusal::StateNotOpened);
    }
    let Ok(figures) = figures::prepare(body, nodes) else {
        return Err(Refusal::StateNotOpened); // whatever the body's own refusal is
    };
    let fit = lent.fit(figures);
    clear_if_refused(fit, nodes);
    fit
}

// How many of `count` flags can be taken from `tick` on before 20: before the tick numbers end.
pub fn flags_left(count: usize, tick: u64) -> usize
    ensures { result ≡ min count (4611686018427387904 - tick) }
{
    let left = FIRST_UNTAKEN.saturating_sub(tick) as usize;
    count.min(left)
}
