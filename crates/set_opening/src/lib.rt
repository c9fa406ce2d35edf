// Opening a set: all the rules of a sheet over one history and one cell table, with a record for each.
#![tactic(auto)]

ghost use Rattle.std.specs.Prelude.{◌≡◌, List, ◌++◌, ◌≤◌, length, drop, Ok};
ghost use Rattle.refusal.specs.Answer.{accepted, and_then};
ghost use Rattle.sheet.specs.Sheet.{rule_body};
ghost use Rattle.rule.specs.declared.Figures.{Figures};
ghost use Rattle.rule.specs.Figures.{body_figures};
ghost use Rattle.demand.specs.SetContract.{set_figures, opened_rule, opened_rules, set_opening_of, SetOpenPromise};
ghost use Rattle.cell_runs.specs.Moves.{Stands};
ghost use Rattle.running.specs.Records.{rules_in};
ghost use Rattle.set_opening.specs.Opening.{set_open_answer, Openable};

use demand::Running;
use refusal::Refusal;
use running::{RECORD_WORDS, store_rule};

// The record of rule `index`, whose cells begin at `first`, over a history of `opened` bytes.
fn opened_rule(sheet: &[u8], index: usize, first: usize, opened: usize) -> Result<Running, Refusal>
    requires { (first ≤ 4096) × (opened ≤ 4096) }
    ensures { (figures : Figures) → and_then (rule_body sheet.now index) body_figures ≡ accepted figures → result ≡ Ok (opened_rule sheet.now opened index first figures) }
{
    let place = sheet::find_rule(sheet, index)?;
    let figures = figures::figures(&sheet[place.start..place.start + place.size])?;
    Ok(Running {
        start: place.start as u32,
        size: place.size as u32,
        first: first as u32,
        cells: figures.cells as u32,
        delay: figures.delay as u16,
        opened: opened as u16,
        live: 0,
        next: 0,
    })
}

// Writes the records of the sheet's `count` rules, over a history of `opened` bytes.
fn write_rules(sheet: &[u8], records: &mut [[u32; RECORD_WORDS]], count: usize, opened: usize)
    requires { Openable sheet.now (length records.old) count opened }
    ensures { (figures : List Figures) → set_figures sheet.now ≡ accepted figures → rules_in records.new ≡ opened_rules sheet.now opened 0 0 figures ++ drop (length figures) (rules_in records.old) }
{
    let mut first: usize = 0;
    for index in 0..count {
        let rule = opened_rule(sheet, index, first, opened).unwrap_or_default();
        store_rule(records, index, rule);
        first += rule.cells as usize;
    }
}

// Opens all the rules of a sheet over a lent history, which is zeroed, and a lent cell table, which is only measured, and writes a record for each into the
// first of the lent ones. Refusals 1, 2, each rule's own in rule order, 27, 17, 18.
pub fn open(
    sheet: &[u8],
    records: &mut [[u32; RECORD_WORDS]],
    history: &mut [u8],
    cells: &[u32],
) -> Result<(), Refusal>
    ensures { SetOpenPromise Stands (set_opening_of (set_open_answer result sheet.now (rules_in records.new)) sheet.now (rules_in records.old) history.old cells.now (rules_in records.new) history.new) }
{
    let sums = set_admission::admit_set(sheet, history.len(), cells.len(), records.len())?;
    write_rules(sheet, records, sums.rules, history.len());
    ring::zero(history);
    Ok(())
}
