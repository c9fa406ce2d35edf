// The instances of a rule, moved by one tick: the ticks that turn false, and how many are live.
ghost use Rattle.std.specs.Prelude.{◌≡◌, cond, ◌++◌, ◌+◌, ◌*◌, ◌-◌, ◌%◌, ◌≤◌, ◌<◌, eqb, length, drop, take, set};
ghost use Rattle.cell_runs.specs.Tree.{tree_at};
ghost use Rattle.cell_runs.specs.Instances.{InstanceMoved, InstanceFit, tick_if_false, TicksFit, TicksMoved, Spared};
ghost use Rattle.cell_runs.specs.Moves.{TickFit, TickMoved};

use crate::advance::{Node, Tick};
use crate::marks::load_outcome;
use crate::stepping::StepCounts;
use cell_runs::Variables;
use cells::CELL_WORDS;
use nodes::{FORMULAS, TABLE_WORDS};
use outcomes::one_if_open;
use ring::remember;
use rule::{Figures, Outcome, Verdict};

// The rule's slots: so many, of `size` words each.
#[derive(Clone, Copy)]
struct Slots {
    count: u64,
    size: usize,
}

// The instance of tick p, moved to the tick at hand: a range's position with no variable before it. One that was decided before is answered from its
// cell.
fn move_instance(tick: &Tick<'_>, left: usize, run: &mut [u32], p: u64) -> Outcome
    requires { InstanceFit (tree_at left tick.now.nodes.now 0) tick.now.t p (length run.old) }
    ensures { InstanceMoved (tree_at left tick.now.nodes.now 0) tick.now.history.now tick.now.flag tick.now.t p run.old result run.new }
{
    if p != tick.t {
        let held = load_outcome(run, 0, p);
        if let Outcome::Decided(_, _) = held {
            return held;
        }
    }
    let variables = Variables {
        known: 0,
        pos: [0; 5],
        bytes: [0; 5],
    };
    tick.advance_position(&variables, Node { left, word: 0 }, run, p, p)
}

// Writes p into the report where the outcome is false at step t, and answers the next place.
fn report_if_false(report: &mut [u64], at: usize, outcome: Outcome, t: u64, p: u64) -> usize
    requires { at < length report.old }
    ensures value { (result ≡ at + length (tick_if_false outcome t p)) × (result ≤ at + 1) }
    ensures report_after { report.new ≡ take at report.old ++ (tick_if_false outcome t p ++ drop result report.old) }
{
    if outcome == Outcome::Decided(Verdict::False, t) {
        report[at] = p;
        return at + 1;
    }
    at
}

// The oldest of the last `count` ticks up to t.
fn oldest_tick(t: u64, count: u64) -> u64
    requires { t < 4611686018427387904 }
    ensures { result ≡ t + 1 - count }
{
    (t + 1).saturating_sub(count)
}

// The slot after this one of `count`; after the last comes the first. Counting on saves a division for each tick.
fn next_slot(slot: u64, count: u64) -> u64
    requires { slot < count }
    ensures { result ≡ cond (eqb (slot + 1) count) 0 (slot + 1) }
{
    if slot + 1 == count { 0 } else { slot + 1 }
}

// Moves the ticks from `low` to the one at hand, each in its slot.
fn move_ticks(
    tick: &Tick<'_>,
    left: usize,
    table: &mut [u32],
    report: &mut [u64],
    low: u64,
    slots: Slots,
) -> StepCounts
    requires ticks_fit { TicksFit (tree_at left tick.now.nodes.now 0) tick.now.t slots.count slots.size (length table.old) (length report.old) }
    requires low_value { low ≡ tick.now.t + 1 - slots.count }
    ensures ticks_moved { TicksMoved (tree_at left tick.now.nodes.now 0) slots.count slots.size tick.now.history.now tick.now.flag tick.now.t low table.old report.old result.reported result.live table.new report.new }
    ensures spared { Spared slots.count (slots.count * slots.size) table.old report.old result.reported result.live table.new report.new }
{
    let mut reported: usize = 0;
    let mut live: usize = 0;
    let mut slot = low % slots.count;
    for p in low..tick.t + 1 {
        let at = (slot as usize) * slots.size;
        let outcome = move_instance(tick, left, &mut table[at..at + slots.size], p);
        reported = report_if_false(report, reported, outcome, tick.t, p);
        live += one_if_open(outcome);
        slot = next_slot(slot, slots.count);
    }
    StepCounts { reported, live }
}

// Takes a tick of the rule whose node table it has, all but storing the byte: starts its instance, moves all live ones, and writes the ticks that are
// false at this step into the report. The history is only read, so that more rules can take the tick before the byte is stored.
pub(crate) fn move_rule(
    tick: &Tick<'_>,
    figures: Figures,
    cells: &mut [u32],
    report: &mut [u64],
) -> StepCounts
    requires { TickFit tick.now.nodes.now figures (length tick.now.history.now) tick.now.t (length cells.old) (length report.old) }
    ensures { TickMoved tick.now.nodes.now figures tick.now.t tick.now.history.now tick.now.flag cells.old report.old result.reported result.live (set tick.now.history.now (tick.now.t % length tick.now.history.now) tick.now.flag) cells.new report.new }
{
    let count = figures.delay + 1;
    let size = (figures.cells / count) as usize * CELL_WORDS;
    let low = oldest_tick(tick.t, count);
    move_ticks(tick, FORMULAS, cells, report, low, Slots { count, size })
}

// A rule in its node table, and its figures.
#[derive(Clone, Copy)]
pub(crate) struct Rule<'a> {
    pub nodes: &'a [u32; TABLE_WORDS],
    pub figures: Figures,
}

impl Rule<'_> {
    // Takes tick t, and stores its byte in the history, last.
    pub(crate) fn move_tick(
        &self,
        t: u64,
        history: &mut [u8],
        flag: u8,
        cells: &mut [u32],
        report: &mut [u64],
    ) -> StepCounts
        requires { TickFit self.now.nodes.now self.now.figures (length history.old) t (length cells.old) (length report.old) }
        ensures { TickMoved self.now.nodes.now self.now.figures t history.old flag cells.old report.old result.reported result.live history.new cells.new report.new }
    {
        let tick = Tick {
            nodes: self.nodes,
            history,
            flag,
            t,
        };
        let moved = move_rule(&tick, self.figures, cells, report);
        remember(history, t, flag);
        moved
    }
}
