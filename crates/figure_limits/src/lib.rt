// A rule's figures against 01's limits, in 01's order: "11: delay infinite. 12: above 255. 13: history infinite. 14: above 4,096. 15: cells above
// 4,096." Cells are counted up to 4,097 (crate `cell_count`).
#![tactic(auto)]

ghost use Rattle.std.specs.Prelude.{◌≡◌};
ghost use Rattle.refusal.specs.Answer.{answer_of};
ghost use Rattle.rule.specs.Figures.{limit_cells, limit_history, limit_delay};
ghost use Rattle.rule.specs.declared.Size.TheVariants.{Finite};
ghost use Rattle.cell_count.specs.Counts.{rule_cells};
ghost use Rattle.figure_limits.specs.Answers.{KeptOrCleared, capped_needed};

use cell_count::{rule_cells, within_limit};
use nodes::{TABLE_WORDS, clear};
use refusal::Refusal;
use rule::{Figures, MAX_DELAY, MAX_HISTORY, Size};

// What an answer leaves of the node table: a refusal makes it all 0.
pub fn clear_if_refused(answer: Result<Figures, Refusal>, nodes: &mut [u32; TABLE_WORDS])
    ensures { KeptOrCleared (answer_of answer) nodes.old nodes.new }
{
    if answer.is_err() {
        clear(nodes);
    }
}

// `cells` are the rule's.
#[tactic(auto, unfolding(rule::specs::Figures::limit_cells))]
fn limit_cells(history: u64, delay: u16, cells: u16) -> Result<Figures, Refusal>
    ensures { answer_of result ≡ limit_cells history delay (Finite cells) }
{
    if !within_limit(cells) {
        return Err(Refusal::CellsAboveLimit);
    }
    Ok(Figures {
        history,
        delay: u64::from(delay),
        cells: u64::from(cells),
    })
}

// `cells` are its formula's.
#[tactic(auto, unfolding(rule::specs::Figures::limit_history))]
fn limit_history(history: Size, delay: u16, cells: u16) -> Result<Figures, Refusal>
    ensures { answer_of result ≡ limit_history history delay (Finite (rule_cells delay cells)) }
{
    match history {
        Size::Unbounded => Err(Refusal::HistoryInfinite),
        Size::Finite(length) if MAX_HISTORY < length => Err(Refusal::HistoryAboveLimit),
        Size::Finite(length) => limit_cells(length, delay, rule_cells(delay, cells)),
    }
}

// `cells` are its formula's.
#[tactic(auto, unfolding(rule::specs::Figures::limit_delay))]
pub fn limit_delay(history: Size, delay: Size, cells: u16) -> Result<Figures, Refusal>
    ensures { answer_of result ≡ limit_delay history delay (capped_needed delay cells) }
{
    match delay {
        Size::Unbounded => Err(Refusal::DelayInfinite),
        Size::Finite(ticks) if MAX_DELAY < ticks => Err(Refusal::DelayAboveLimit),
        Size::Finite(ticks) => limit_history(history, ticks as u16, cells),
    }
}
