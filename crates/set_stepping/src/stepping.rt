// One step of a set: refused, or its flag byte taken by all its rules.
ghost use Rattle.demand.specs.SetContract.{set_step_of, SetStepPromise};
ghost use Rattle.cell_runs.specs.Moves.{Stands};
ghost use Rattle.running.specs.Records.{rules_in};
ghost use Rattle.set_stepping.specs.Answers.{set_step_answer};

use crate::rules::take_flag;
use instances::StepCounts;
use refusal::Refusal;
use running::RECORD_WORDS;

// Takes one flag byte: every rule takes its tick in its own cells, the report gets pairs of a rule number and a tick, ascending, and the byte is stored in the
// history, last and once. It answers how many pairs were written and how many ticks are live in all. A refusal changes nothing.
pub fn step(
    sheet: &[u8],
    records: &mut [[u32; RECORD_WORDS]],
    flag: u8,
    history: &mut [u8],
    cells: &mut [u32],
    report: &mut [u64],
) -> Result<StepCounts, Refusal>
    ensures { SetStepPromise Stands (set_step_of (set_step_answer result sheet.now (rules_in records.new)) sheet.now (rules_in records.old) flag history.old cells.old report.old (rules_in records.new) history.new cells.new report.new) }
{
    let admitted = set_admission::admit_records(
        sheet,
        records,
        history.len(),
        cells.len(),
        report.len(),
    );
    admitted?;
    let moved = take_flag(sheet, records, history, flag, cells, report);
    Ok(moved)
}
