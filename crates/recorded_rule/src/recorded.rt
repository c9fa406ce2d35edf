// A rule in its node table, with the recording that it was read for.
ghost use Rattle.std.specs.Prelude.{◌≡◌, ◌≤◌, length};
ghost use Rattle.nodes.specs.Table.{formula_in};
ghost use Rattle.complete_report.specs.FalseSteps.{false_step, step_below};

use crate::false_step;
use nodes::TABLE_WORDS;

// The node table of a rule, and a recording of no more than 65,535 bytes: `read_rule` lets no longer one through.
#[derive(Clone, Copy)]
pub struct Recorded<'a> {
    pub nodes: &'a [u32; TABLE_WORDS],
    pub recording: &'a [u8],
    pub ghost short: { length recording.now ≤ 65535 },
}

impl Recorded<'_> {
    // The step at which the rule is false at a tick; none where the tick is no violation.
    pub fn false_step(&self, tick: usize) -> Option<u64>
        ensures { result ≡ step_below (length self.now.recording.now) (false_step (formula_in 64 self.now.nodes.now 0 0) self.now.recording.now tick) }
    {
        false_step(self.nodes, self.recording, tick)
    }
}
