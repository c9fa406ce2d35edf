// A step of a set by value: its records as words, the step of lent words, and the set from them.
ghost use Rattle.std.specs.Prelude.{◌≡◌, min, length};
ghost use Rattle.demand.specs.SetContract.{set_step_of, SetStepPromise};
ghost use Rattle.cell_runs.specs.Moves.{Stands};
ghost use Rattle.set_stepping.specs.Answers.{set_step_answer};
ghost use Rattle.set_values.specs.Values.{held_rules, OthersKept};

use crate::record_words::{read_words, write_words};
use crate::{MOST_RULES, RuleSet, held_count};
use instances::StepCounts;
use refusal::Refusal;
use running::RECORD_WORDS;

// How many pairs were written and how many ticks are live in all, or why the step was refused; and the set as it is then.
#[derive(Clone, Copy)]
pub struct SteppedSet {
    pub answer: Result<StepCounts, Refusal>,
    pub set: RuleSet,
}

// Takes one flag byte by words for as many records as the set has.
// Kept: seven parameters. Six are handed on to `set_stepping::step` one by one: a struct of them would be taken apart at once, which is no plainer.
fn step_by_words(
    sheet: &[u8],
    set: RuleSet,
    words: &mut [[u32; RECORD_WORDS]],
    flag: u8,
    history: &mut [u8],
    cells: &mut [u32],
    report: &mut [u64],
) -> SteppedSet
    requires { length words.old ≡ min set.lent 32 }
    ensures { SetStepPromise Stands (set_step_of (set_step_answer result.answer sheet.now (held_rules result.set)) sheet.now (held_rules set) flag history.old cells.old report.old (held_rules result.set) history.new cells.new report.new) × OthersKept set result.set }
{
    write_words(set, words);
    let answer = set_stepping::step(sheet, words, flag, history, cells, report);
    let stepped = read_words(set, words);
    SteppedSet {
        answer,
        set: stepped,
    }
}

// Takes one flag byte, as `set_stepping::step` does with the records that the set holds.
pub fn step_set(
    sheet: &[u8],
    set: RuleSet,
    flag: u8,
    history: &mut [u8],
    cells: &mut [u32],
    report: &mut [u64],
) -> SteppedSet
    ensures { SetStepPromise Stands (set_step_of (set_step_answer result.answer sheet.now (held_rules result.set)) sheet.now (held_rules set) flag history.old cells.old report.old (held_rules result.set) history.new cells.new report.new) × OthersKept set result.set }
{
    let mut words = [[0u32; RECORD_WORDS]; MOST_RULES];
    let count = held_count(set.lent);
    step_by_words(
        sheet,
        set,
        &mut words[..count],
        flag,
        history,
        cells,
        report,
    )
}
