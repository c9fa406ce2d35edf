// The records of a set as a lent slice of structs: these functions are few and thin, and every decision stands in `set_values`.
#![tactic(auto)]

ghost use Rattle.std.specs.Prelude.{◌≡◌, length, get_or, set};
ghost use Rattle.demand.specs.SetContract.{no_rule, set_opening_of, set_step_of, SetOpenPromise, SetStepPromise};
ghost use Rattle.cell_runs.specs.Moves.{Stands};
ghost use Rattle.set_opening.specs.Opening.{set_open_answer};
ghost use Rattle.set_stepping.specs.Answers.{set_step_answer};
ghost use Rattle.set_records.specs.Lent.{loaded, saved};

use demand::Running;
use instances::StepCounts;
use refusal::Refusal;
use set_values::{MOST_RULES, RuleSet, held_count, open_set, step_set};

// How many records there are.
pub fn record_count(records: &[Running]) -> usize
    ensures { result ≡ length records.now }
{
    records.len()
}

// The record at a place; one of no rule past the end.
pub fn record_at(records: &[Running], index: usize) -> Running
    ensures { result ≡ get_or records.now index no_rule }
{
    records.get(index).copied().unwrap_or_default()
}

// Writes the record at a place, and nothing past the end.
// Kept: with `get_mut` of a slice the proof doesn't close, since it says nothing of the elements afterwards.
pub fn store_record(records: &mut [Running], index: usize, rule: Running)
    ensures { records.new ≡ set records.old index rule }
{
    if index < records.len() {
        records[index] = rule;
    }
}

// The first 32 records, as a set.
pub fn load_records(records: &[Running]) -> RuleSet
    ensures { result ≡ loaded records.now }
{
    let lent = records.len();
    let count = held_count(lent);
    let mut rules = [Running::default(); MOST_RULES];
    rules[..count].copy_from_slice(&records[..count]);
    RuleSet { rules, lent }
}

// Writes the records of a set into the first 32 places, as far as they are there; further ones keep their content.
pub fn save_records(records: &mut [Running], set: RuleSet)
    ensures { records.new ≡ saved records.old set }
{
    let count = held_count(records.len());
    records[..count].copy_from_slice(&set.rules[..count]);
}

// Opens a set whose records are lent, as `set_opening::open` does.
pub fn open_records(
    sheet: &[u8],
    records: &mut [Running],
    history: &mut [u8],
    cells: &[u32],
) -> Result<(), Refusal>
    ensures { SetOpenPromise Stands (set_opening_of (set_open_answer result sheet.now records.new) sheet.now records.old history.old cells.now records.new history.new) }
{
    let set = load_records(records);
    let opened = open_set(sheet, set, history, cells);
    save_records(records, opened.set);
    opened.answer
}

// Takes one flag byte with a set whose records are lent, as `set_stepping::step` does.
pub fn step_records(
    sheet: &[u8],
    records: &mut [Running],
    flag: u8,
    history: &mut [u8],
    cells: &mut [u32],
    report: &mut [u64],
) -> Result<StepCounts, Refusal>
    ensures { SetStepPromise Stands (set_step_of (set_step_answer result sheet.now records.new) sheet.now records.old flag history.old cells.old report.old records.new history.new cells.new report.new) }
{
    let set = load_records(records);
    let stepped = step_set(sheet, set, flag, history, cells, report);
    save_records(records, stepped.set);
    stepped.answer
}
