// Ticks of a report made into pairs of a rule and a tick, and these into triples with their step, in place.
ghost use Rattle.std.specs.Prelude.{◌≡◌, ◌++◌, ◌*◌, ◌≤◌, length, take, drop};
ghost use Rattle.demand.specs.SetContract.{numbered, timed};

// Puts the rule before each of the first `count` ticks, from the last one down.
pub(crate) fn number_ticks(report: &mut [u64], count: usize, rule: u64)
    requires { 2 * count ≤ length report.old }
    ensures { report.new ≡ numbered rule (take count report.old) ++ drop (2 * count) report.old }
{
    for at in (0..count).rev() {
        let tick = report[at];
        report[2 * at] = rule;
        report[2 * at + 1] = tick;
    }
}

// Puts the step after each of the first `count` pairs, from the last one down.
// Kept: beside `instances::batch::spread`, which does so with groups of one. One function with a width would move each group by an inner loop and promise a third definition over
// `paired` and `timed` (demand/specs), under which both promises stand: no plainer than the three stores below.
pub(crate) fn time_pairs(report: &mut [u64], count: usize, step: u64)
    requires { 3 * count ≤ length report.old }
    ensures { report.new ≡ timed step (take (2 * count) report.old) ++ drop (3 * count) report.old }
{
    for at in (0..count).rev() {
        let rule = report[2 * at];
        let tick = report[2 * at + 1];
        report[3 * at] = rule;
        report[3 * at + 1] = tick;
        report[3 * at + 2] = step;
    }
}
