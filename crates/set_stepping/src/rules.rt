// All running rules moved by one tick.
ghost use Rattle.std.specs.Prelude.{◌≡◌, length};
ghost use Rattle.demand.specs.SetContract.{next_rule};
ghost use Rattle.running.specs.Records.{rules_in};
ghost use Rattle.set_stepping.specs.Moves.{RuleFit, RuleMoved, SetFits, SetMoved, stored_byte, NextFit};

use crate::pairs::number_ticks;
use demand::Running;
use instances::StepCounts;
use ring::remember;
use running::{RECORD_WORDS, rule_at, store_rule};
use words::byte_after;

// The rule, which took its tick, with so many live.
fn next_rule(rule: Running, live: usize) -> Running
    requires { NextFit rule live }
    ensures { result ≡ next_rule rule live }
{
    Running {
        live: live as u32,
        next: rule.next + 1,
        ..rule
    }
}

// A tick of a set, whose rules take it one after another: the sheet, the history, which is only read, and the flag byte.
#[derive(Clone, Copy)]
struct Tick<'a> {
    sheet: &'a [u8],
    history: &'a [u8],
    flag: u8,
}

impl Tick<'_> {
    // Moves rule `index` by one tick in its own part of the cells, and writes its pairs at the report's start. Its tick is not refused, since the set is admitted.
    fn take_rule(
        &self,
        rule: Running,
        index: u64,
        cells: &mut [u32],
        report: &mut [u64],
    ) -> StepCounts
        requires { RuleFit self.now.sheet.now rule (length self.now.history.now) (length cells.old) (length report.old) }
        ensures { RuleMoved self.now.sheet.now rule index self.now.history.now self.now.flag cells.old report.old result.reported result.live cells.new report.new }
    {
        let start = rule.start as usize;
        let end = start + rule.size as usize;
        let low = 4 * rule.first as usize;
        let high = low + 4 * rule.cells as usize;
        let ticks = usize::from(rule.delay) + 1;
        let moved = instances::take_tick(
            &self.sheet[start..end],
            rule.opened as usize,
            rule.next,
            self.history,
            self.flag,
            &mut cells[low..high],
            &mut report[..ticks],
        )
        .unwrap_or(StepCounts {
            reported: 0,
            live: 0,
        });
        number_ticks(report, moved.reported, index);
        moved
    }

    // Moves all rules of an admitted set, one after another.
    fn move_rules(
        &self,
        records: &mut [[u32; RECORD_WORDS]],
        cells: &mut [u32],
        report: &mut [u64],
    ) -> StepCounts
        requires { SetFits self.now.sheet.now (rules_in records.old) (length self.now.history.now) (length cells.old) (length report.old) }
        ensures { SetMoved self.now.sheet.now (rules_in records.old) self.now.history.now self.now.flag cells.old report.old result.reported result.live (rules_in records.new) (stored_byte (rules_in records.old) self.now.history.now self.now.flag) cells.new report.new }
    {
        let mut pairs: usize = 0;
        let mut live: usize = 0;
        for index in 0..byte_after(self.sheet, 0, 0) {
            let rule = rule_at(records, index);
            let at = 2 * pairs;
            let moved = self.take_rule(rule, index as u64, cells, &mut report[at..]);
            store_rule(records, index, next_rule(rule, moved.live));
            pairs += moved.reported;
            live += moved.live;
        }
        StepCounts {
            reported: pairs,
            live,
        }
    }
}

// Takes one flag byte of an admitted set: moves all rules, and stores the byte in the history, last and once.
pub(crate) fn take_flag(
    sheet: &[u8],
    records: &mut [[u32; RECORD_WORDS]],
    history: &mut [u8],
    flag: u8,
    cells: &mut [u32],
    report: &mut [u64],
) -> StepCounts
    requires { SetFits sheet.now (rules_in records.old) (length history.old) (length cells.old) (length report.old) }
    ensures { SetMoved sheet.now (rules_in records.old) history.old flag cells.old report.old result.reported result.live (rules_in records.new) history.new cells.new report.new }
{
    let lead = rule_at(records, 0);
    let tick = Tick {
        sheet,
        history,
        flag,
    };
    let moved = tick.move_rules(records, cells, report);
    remember(history, lead.next, flag);
    moved
}
