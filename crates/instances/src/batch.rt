// Many flag bytes of a rule, whose body is read and measured once.
ghost use Rattle.std.specs.Prelude.{◌≡◌, ◌++◌, ◌+◌, ◌*◌, ◌≤◌, length, take, drop};
ghost use Rattle.demand.specs.Contract.{paired};
ghost use Rattle.instances.specs.Answers.{BatchOf};
ghost use Rattle.cell_runs.specs.Batches.{BatchFit, FlagsTaken, PairsFit, PairsMoved};

use crate::instances::Rule;
use crate::stepping::StepCounts;
use admission::{Lent, flags_left};
use nodes::TABLE_WORDS;
use refusal::Refusal;

// The words that one step of any rule can report.
const REPORT_WORDS: usize = 256;

// How many flags were taken, how many pairs of a tick and its deciding step were written, and how many ticks are live.
#[derive(Clone, Copy, Debug, PartialEq, Eq)]
pub struct BatchCounts {
    pub taken: usize,
    pub pairs: usize,
    pub live: usize,
}

// Puts the step after each of the first `count` ticks, from the last one down.
// Kept: beside `set_stepping::pairs::time_pairs`; the line there says why.
fn spread(report: &mut [u64], count: usize, step: u64)
    requires { 2 * count ≤ length report.old }
    ensures { report.new ≡ paired step (take count report.old) ++ drop (2 * count) report.old }
{
    for at in (0..count).rev() {
        let tick = report[at];
        report[2 * at] = tick;
        report[2 * at + 1] = step;
    }
}

// Takes tick t, whose report has a word for each tick that can be reported and as many again for their steps, and makes pairs of them.
fn move_pairs(
    rule: &Rule<'_>,
    t: u64,
    history: &mut [u8],
    flag: u8,
    cells: &mut [u32],
    report: &mut [u64],
) -> StepCounts
    requires { PairsFit rule.now.nodes.now rule.now.figures (length history.old) t (length cells.old) (length report.old) (rule.now.figures.delay + 1) }
    ensures { PairsMoved rule.now.nodes.now rule.now.figures t history.old flag cells.old report.old (rule.now.figures.delay + 1) result.reported result.live history.new cells.new report.new }
{
    let half = rule.figures.delay as usize + 1;
    let moved = rule.move_tick(t, history, flag, cells, &mut report[..half]);
    spread(report, moved.reported, t);
    moved
}

// Takes flags from tick `tick` on, until they or the tick numbers end, or the report has no room for another step.
fn move_flags(
    rule: &Rule<'_>,
    tick: u64,
    live: usize,
    flags: &[u8],
    history: &mut [u8],
    cells: &mut [u32],
    report: &mut [u64],
) -> BatchCounts
    requires { BatchFit rule.now.nodes.now rule.now.figures (length history.old) tick (length cells.old) }
    ensures { FlagsTaken rule.now.nodes.now rule.now.figures tick live flags.now history.old cells.old report.old result.taken result.pairs result.live history.new cells.new report.new }
{
    let half = rule.figures.delay as usize + 1;
    let count = flags_left(flags.len(), tick);
    let mut pairs: usize = 0;
    let mut still_open = live;
    for taken in 0..count {
        let at = 2 * pairs;
        if report.len() - at < 2 * half {
            return BatchCounts {
                taken,
                pairs,
                live: still_open,
            };
        }
        let t = tick + taken as u64;
        let moved = move_pairs(rule, t, history, flags[taken], cells, &mut report[at..]);
        pairs += moved.reported;
        still_open = moved.live;
    }
    BatchCounts {
        taken: count,
        pairs,
        live: still_open,
    }
}

// Takes flag bytes one after another, each as a step does, from the tick `tick` on, before which `live` ticks were live. A refusal changes nothing.
// Kept: its parameters, what a step is lent; its callers (a state's steps, and those of a set) have them each in another struct, so one more would be made for the call alone.
pub fn take_batch(
    body: &[u8],
    opened: usize,
    tick: u64,
    live: usize,
    flags: &[u8],
    history: &mut [u8],
    cells: &mut [u32],
    report: &mut [u64],
) -> Result<BatchCounts, Refusal>
    ensures { BatchOf body.now opened tick live flags.now history.old cells.old report.old result history.new cells.new report.new }
{
    let mut nodes = [0u32; TABLE_WORDS];
    let lent = Lent {
        opened,
        tick,
        history: history.len(),
        table: cells.len(),
        report: REPORT_WORDS,
    };
    let figures = admission::admit_step(body, lent, &mut nodes)?;
    let rule = Rule {
        nodes: &nodes,
        figures,
    };
    Ok(move_flags(&rule, tick, live, flags, history, cells, report))
}
