// Whether lent records are those of running rules, and what a step of them is lent.
ghost use Rattle.std.specs.Prelude.{◌≡◌, ◌||◌, List, ◌≤◌, eqb, length, take};
ghost use Rattle.refusal.specs.Answer.{answer_of};
ghost use Rattle.rule.specs.declared.Figures.{Figures};
ghost use Rattle.demand.specs.SetContract.{same_figures, runs, fit_set, admit_records};
ghost use Rattle.running.specs.Records.{rules_in};
ghost use Rattle.set_admission.specs.Fit.{most_pairs, SumsAre, Summed};

use crate::MAX_CELLS;
use demand::Running;
use refusal::Refusal;
use rule::{FIRST_UNTAKEN, Figures, MAX_HISTORY};
use running::{RECORD_WORDS, rule_at};
use sheet::MAX_RULES;
use words::byte_after;

// Whether a rule's body has the figures of its record, and its opened length is enough for it.
fn same_figures(rule: Running, answer: Result<Figures, Refusal>) -> bool
    ensures { result ≡ same_figures rule (answer_of answer) }
{
    match answer {
        Ok(figures) => {
            figures.cells == u64::from(rule.cells)
                && figures.delay == u64::from(rule.delay)
                && figures.history <= u64::from(rule.opened)
        }
        Err(_) => false,
    }
}

// Whether a record, whose rule's cells begin at `first`, is one that an opening of this sheet and its steps can have left beside the first record.
#[tactic(auto, unfolding(demand::specs::SetContract::runs))]
fn rule_runs(sheet: &[u8], lead: Running, rule: Running, first: usize) -> bool
    ensures { result ≡ runs sheet.now lead.opened lead.next first rule }
{
    let start = rule.start as usize;
    let end = start + rule.size as usize;
    end <= sheet.len()
        && rule.first as usize == first
        && rule.opened == lead.opened
        && rule.next == lead.next
        && same_figures(rule, figures::figures(&sheet[start..end]))
}

// The sums over running rules: their cells, and the most pairs of a step.
#[derive(Clone, Copy)]
struct Sums {
    pub cells: usize,
    pub pairs: usize,
}

// The sums over the first `count` records, the first of all being `lead`; none where they are not all of running rules.
fn sum_records(
    sheet: &[u8],
    records: &[[u32; RECORD_WORDS]],
    lead: Running,
    count: usize,
) -> Option<Sums>
    requires { (count ≤ 32) × (count ≤ length records.now) }
    ensures { Summed sheet.now lead (take count (rules_in records.now)) result }
{
    let mut cells: usize = 0;
    let mut pairs: usize = 0;
    for index in 0..count {
        let rule = rule_at(records, index);
        if !rule_runs(sheet, lead, rule, cells) {
            return None;
        }
        cells += rule.cells as usize;
        pairs += usize::from(rule.delay) + 1;
    }
    if MAX_CELLS < cells as u64 {
        return None;
    }
    Some(Sums { cells, pairs })
}

// How long each part is that a step is lent.
#[derive(Clone, Copy)]
struct Lent {
    pub history: usize,
    pub cells: usize,
    pub report: usize,
    pub records: usize,
}

// Whether the history has its opened length, which is not known where no record is lent.
fn history_fits(opened: u16, history: usize, records: usize) -> bool
    ensures { result ≡ (eqb records 0 || eqb history opened) }
{
    records == 0 || history == usize::from(opened)
}

// 17 to 20 of a set of so many rules with these sums, whose first record is `lead`.
#[tactic(auto, unfolding(demand::specs::SetContract::fit_set, refusal::specs::Answer::and_then, demand::specs::Contract::must))]
fn fit_set(sums: Sums, lead: Running, rules: usize, lent: Lent) -> Result<usize, Refusal>
    requires { (sums.cells ≤ 4096) × (sums.pairs ≤ 8192) }
    ensures { (figures : List Figures) → SumsAre figures sums → answer_of result ≡ most_pairs (fit_set figures rules lead.opened lead.next lent.history lent.cells lent.report lent.records) }
{
    if !history_fits(lead.opened, lent.history, lent.records) {
        return Err(Refusal::HistoryLength);
    }
    if lent.cells < 4 * sums.cells || lent.records < rules {
        return Err(Refusal::CellTableTooShort);
    }
    if lent.report < 2 * sums.pairs {
        return Err(Refusal::ReportTooShort);
    }
    if FIRST_UNTAKEN <= lead.next {
        return Err(Refusal::TicksUsedUp);
    }
    Ok(sums.pairs)
}

// The most pairs with which a step of the rules of these records goes on, or a refusal: 21, 17 to 20.
pub fn admit_records(
    sheet: &[u8],
    records: &[[u32; RECORD_WORDS]],
    history: usize,
    cells: usize,
    report: usize,
) -> Result<usize, Refusal>
    ensures { answer_of result ≡ most_pairs (admit_records sheet.now (rules_in records.now) history cells report) }
{
    let rules = byte_after(sheet, 0, 0);
    if rules < 1 || MAX_RULES < rules {
        return Err(Refusal::StateNotOpened);
    }
    let lead = rule_at(records, 0);
    if MAX_HISTORY < u64::from(lead.opened) {
        return Err(Refusal::StateNotOpened);
    }
    let Some(sums) = sum_records(sheet, records, lead, rules.min(records.len())) else {
        return Err(Refusal::StateNotOpened);
    };
    let lent = Lent {
        history,
        cells,
        report,
        records: records.len(),
    };
    fit_set(sums, lead, rules, lent)
}
