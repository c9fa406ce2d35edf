// One step of a rule: refused, or its tick taken.
ghost use Rattle.instances.specs.Answers.{StepOf, TickOf};

use crate::advance::Tick;
use crate::instances::move_rule;
use admission::Lent;
use nodes::TABLE_WORDS;
use refusal::Refusal;
use ring::remember;

// How many ticks a step reported, and how many are live after it.
#[derive(Clone, Copy, Debug, PartialEq, Eq)]
pub struct StepCounts {
    pub reported: usize,
    pub live: usize,
}

// Takes the tick of the rule with this body, whose history was opened with `opened` bytes, however many ticks are live, all but storing its byte: the
// rules of a set take their tick one after another over the same history. A refusal changes nothing.
// Kept: its parameters, what a step is lent; its callers (a state's steps, and those of a set) have them each in another struct, so one more would be made for the call alone.
pub fn take_tick(
    body: &[u8],
    opened: usize,
    tick: u64,
    history: &[u8],
    flag: u8,
    cells: &mut [u32],
    report: &mut [u64],
) -> Result<StepCounts, Refusal>
    ensures { TickOf body.now opened tick flag history.now cells.old report.old result cells.new report.new }
{
    let mut nodes = [0u32; TABLE_WORDS];
    let lent = Lent {
        opened,
        tick,
        history: history.len(),
        table: cells.len(),
        report: report.len(),
    };
    let figures = admission::admit_step(body, lent, &mut nodes)?;
    let at_hand = Tick {
        nodes: &nodes,
        history,
        flag,
        t: tick,
    };
    Ok(move_rule(&at_hand, figures, cells, report))
}

// The same, and stores the byte of a tick that was taken.
// Kept: its parameters, what a step is lent; its callers (a state's steps, and those of a set) have them each in another struct, so one more would be made for the call alone.
pub fn take_step(
    body: &[u8],
    opened: usize,
    tick: u64,
    history: &mut [u8],
    flag: u8,
    cells: &mut [u32],
    report: &mut [u64],
) -> Result<StepCounts, Refusal>
    ensures { StepOf body.now opened tick flag history.old cells.old report.old result history.new cells.new report.new }
{
    let counts = take_tick(body, opened, tick, history, flag, cells, report)?;
    remember(history, tick, flag);
    Ok(counts)
}
