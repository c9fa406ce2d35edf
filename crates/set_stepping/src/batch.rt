// Many flag bytes of a set, whose records are looked at once.
ghost use Rattle.std.specs.Prelude.{◌≡◌, ◌≤◌, length, take};
ghost use Rattle.demand.specs.SetContract.{all_live, set_batch_of, SetBatchPromise};
ghost use Rattle.cell_runs.specs.Moves.{Stands};
ghost use Rattle.running.specs.Records.{rules_in};
ghost use Rattle.set_stepping.specs.Answers.{set_batch_answer};
ghost use Rattle.set_stepping.specs.Batches.{TimedFit, TimedMoved, SetBatchFit, SetFlagsTaken};

use crate::pairs::time_pairs;
use crate::rules::take_flag;
use admission::flags_left;
use instances::StepCounts;
use refusal::Refusal;
use running::{RECORD_WORDS, rule_at};
use words::byte_after;

// The words that one step of any set can report.
const SET_REPORT_WORDS: usize = 8192;

// How many flags were taken, how many triples were written and how many ticks are live in all.
#[derive(Clone, Copy, Debug, PartialEq, Eq)]
pub struct SetBatchCounts {
    pub taken: usize,
    pub triples: usize,
    pub live: usize,
}

// The live ticks of the first `count` rules.
fn all_live(records: &[[u32; RECORD_WORDS]], count: usize) -> usize
    requires { count ≤ 255 }
    ensures { result ≡ all_live (take count (rules_in records.now)) }
{
    let mut live: usize = 0;
    for index in 0..count {
        live += rule_at(records, index).live as usize;
    }
    live
}

// An admitted set: its sheet, and the most pairs that a step of it can report.
#[derive(Clone, Copy)]
struct Admitted<'a> {
    sheet: &'a [u8],
    most: usize,
}

impl Admitted<'_> {
    // Takes a flag, and makes triples of its pairs.
    fn take_timed(
        &self,
        records: &mut [[u32; RECORD_WORDS]],
        history: &mut [u8],
        flag: u8,
        cells: &mut [u32],
        report: &mut [u64],
    ) -> StepCounts
        requires { TimedFit self.now.sheet.now (rules_in records.old) (length history.old) (length cells.old) (length report.old) self.now.most }
        ensures { TimedMoved self.now.sheet.now (rules_in records.old) history.old flag cells.old report.old self.now.most result.reported result.live (rules_in records.new) history.new cells.new report.new }
    {
        let lead = rule_at(records, 0);
        let words = 2 * self.most;
        let moved = take_flag(
            self.sheet,
            records,
            history,
            flag,
            cells,
            &mut report[..words],
        );
        time_pairs(report, moved.reported, lead.next);
        moved
    }

    // Takes flags, until they or the tick numbers end, or the report has no room for another step.
    fn take_flags(
        &self,
        records: &mut [[u32; RECORD_WORDS]],
        flags: &[u8],
        history: &mut [u8],
        cells: &mut [u32],
        report: &mut [u64],
    ) -> SetBatchCounts
        requires { SetBatchFit self.now.sheet.now (rules_in records.old) (length history.old) (length cells.old) self.now.most }
        ensures { SetFlagsTaken self.now.sheet.now (rules_in records.old) flags.now history.old cells.old report.old result.taken result.triples result.live (rules_in records.new) history.new cells.new report.new }
    {
        let lead = rule_at(records, 0);
        let count = flags_left(flags.len(), lead.next);
        let mut triples: usize = 0;
        let mut live = all_live(records, byte_after(self.sheet, 0, 0));
        for taken in 0..count {
            let at = 3 * triples;
            if report.len() - at < 3 * self.most {
                return SetBatchCounts {
                    taken,
                    triples,
                    live,
                };
            }
            let flag = flags[taken];
            let moved = self.take_timed(records, history, flag, cells, &mut report[at..]);
            triples += moved.reported;
            live = moved.live;
        }
        SetBatchCounts {
            taken: count,
            triples,
            live,
        }
    }
}

// Takes flag bytes one after another, each as `step` does. The report gets triples of a rule number, a tick and the step that decided it, end to end. It
// stops before a step for which fewer than three times the sum of all delay + 1 report words are left, and where the tick numbers end.
pub fn steps(
    sheet: &[u8],
    records: &mut [[u32; RECORD_WORDS]],
    flags: &[u8],
    history: &mut [u8],
    cells: &mut [u32],
    report: &mut [u64],
) -> Result<SetBatchCounts, Refusal>
    ensures { SetBatchPromise Stands (set_batch_of (set_batch_answer result sheet.now (rules_in records.new)) sheet.now (rules_in records.old) flags.now history.old cells.old report.old (rules_in records.new) history.new cells.new report.new) }
{
    let most = set_admission::admit_records(
        sheet,
        records,
        history.len(),
        cells.len(),
        SET_REPORT_WORDS,
    )?;
    let set = Admitted { sheet, most };
    let counts = set.take_flags(records, flags, history, cells, report);
    Ok(counts)
}
