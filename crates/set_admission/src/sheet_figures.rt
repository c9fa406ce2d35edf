// What all rules of a sheet need together, and what an opening of them is lent.
ghost use Rattle.std.specs.Prelude.{◌≡◌, List, ◌≤◌};
ghost use Rattle.refusal.specs.Answer.{answer_of, and_then};
ghost use Rattle.sheet.specs.Sheet.{rule_count, rule_body};
ghost use Rattle.rule.specs.Figures.{body_figures};
ghost use Rattle.demand.specs.SetContract.{all_figures, bodies_from, set_figures, set_room, admit_set_lengths};
ghost use Rattle.admission.specs.Admitted.{FiguresWithin};
ghost use Rattle.set_admission.specs.Together.{few_cells, sums_of, summed, with_figures, SmallSums, Laid};

use crate::MAX_CELLS;
use refusal::Refusal;
use rule::{Figures, MAX_HISTORY};
use words::byte_after;

// What all rules need together: how many there are, the largest history figure, the sum of their cells, and the most pairs that a step can report, which
// is the sum of all delay + 1.
#[derive(Clone, Copy, Debug, Default, PartialEq, Eq)]
pub struct SetFigures {
    pub rules: usize,
    pub history: u64,
    pub cells: u64,
    pub pairs: u64,
}

// The figures of a sheet's rule, or a refusal: 1 to 15, 23, 24.
#[tactic(auto, using(refusal::proofs::Answers::handed_on), unfolding(refusal::specs::Answer::and_then))]
fn rule_figures(sheet: &[u8], index: usize) -> Result<Figures, Refusal>
    ensures { answer_of result ≡ and_then (rule_body sheet.now index) body_figures }
{
    figures::figures(sheet::body_in(sheet, index)?)
}

// What some rules need, with one rule more.
fn with_figures(sums: SetFigures, figures: Figures) -> SetFigures
    requires small_sums { SmallSums sums }
    requires figures_within { FiguresWithin figures }
    ensures { result ≡ with_figures sums figures }
{
    SetFigures {
        rules: sums.rules + 1,
        history: sums.history.max(figures.history),
        cells: sums.cells + figures.cells,
        pairs: sums.pairs + (figures.delay + 1),
    }
}

// What all rules of a laid-out sheet need, or the first rule's refusal.
#[tactic(auto, unfolding(demand::specs::SetContract::bodies_from, demand::specs::SetContract::all_figures, refusal::specs::Answer::and_then))]
fn sum_figures(sheet: &[u8]) -> Result<SetFigures, Refusal>
    requires { Laid sheet.now }
    ensures { answer_of result ≡ summed (all_figures (bodies_from (rule_count sheet.now) sheet.now 0)) }
{
    let mut sums = SetFigures::default();
    for index in 0..byte_after(sheet, 0, 0) {
        sums = with_figures(sums, rule_figures(sheet, index)?);
    }
    Ok(sums)
}

// 27 for more cells in all than a set can have.
#[tactic(auto, unfolding(demand::specs::Contract::must))]
fn limit_all_cells(sums: SetFigures) -> Result<SetFigures, Refusal>
    ensures { answer_of result ≡ few_cells sums }
{
    if MAX_CELLS < sums.cells {
        return Err(Refusal::SetCellsAboveLimit);
    }
    Ok(sums)
}

// What all rules of a sheet need together: refusals 1, 2, each rule's own 4 to 15, 23 and 24 in rule order, and 27.
pub fn set_figures(sheet: &[u8]) -> Result<SetFigures, Refusal>
    ensures { answer_of result ≡ summed (set_figures sheet.now) }
{
    sheet::find_rule(sheet, 0)?;
    limit_all_cells(sum_figures(sheet)?)
}

// The opening of rules that need this, with a history, a table and records of these lengths: 17, 18.
#[tactic(auto, unfolding(demand::specs::SetContract::set_room, refusal::specs::Answer::and_then, demand::specs::Contract::must))]
fn fit_set_opening(
    sums: SetFigures,
    history: usize,
    table: usize,
    records: usize,
) -> Result<SetFigures, Refusal>
    requires { sums.cells ≤ 4096 }
    ensures { (figures : List Figures) → sums ≡ sums_of figures → answer_of result ≡ summed (set_room history table records figures) }
{
    if (history as u64) < sums.history {
        return Err(Refusal::HistoryLength);
    }
    if MAX_HISTORY < history as u64 {
        return Err(Refusal::HistoryLength);
    }
    if table < 4 * sums.cells as usize {
        return Err(Refusal::CellTableTooShort);
    }
    if records < sums.rules {
        return Err(Refusal::CellTableTooShort);
    }
    Ok(sums)
}

// What all rules of a sheet need, where they can be opened over a history, a table and records of these lengths.
pub fn admit_set(
    sheet: &[u8],
    history: usize,
    table: usize,
    records: usize,
) -> Result<SetFigures, Refusal>
    ensures { answer_of result ≡ summed (admit_set_lengths sheet.now history table records) }
{
    fit_set_opening(set_figures(sheet)?, history, table, records)
}
