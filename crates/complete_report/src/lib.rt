// The complete report of a recording (document 02, point 8), as definitions (specs/) with their laws (proofs/); the types that definitions and code share; and
// violations as lent words, two to a violation, tick and step: what C lends.
#![tactic(auto)]

ghost use Rattle.std.specs.Prelude.{◌≡◌, get_or, set};
ghost use Rattle.complete_report.specs.Lists.{violations_in, none_lent};
ghost use Rattle.complete_report.specs.Order.{before};

// The words of a violation.
pub const VIOLATION_WORDS: usize = 2;

// A tick at which a rule is false, and the step that decides it.
#[derive(Clone, Copy)]
pub struct Violation {
    pub tick: u64,
    pub step: u64,
}

// A list beside the complete report: the same; or the first entry that differs, counted from 0, and what stands there in the complete report: a violation, or nothing,
// as it has ended.
#[derive(Clone, Copy)]
pub enum Comparison {
    Same,
    Differs(usize, Violation),
    Ends(usize),
}

// The violation at a place of a lent list; that of tick 0 and step 0 past the end.
// Kept: no Option past the end, since the clause reads `none_lent` there, and so do `above_at` and `Spaced`.
pub fn violation_at(list: &[[u64; VIOLATION_WORDS]], index: usize) -> Violation
    ensures { result ≡ get_or (violations_in list.now) index none_lent }
{
    match list.get(index) {
        Some(&[tick, step]) => Violation { tick, step },
        None => Violation { tick: 0, step: 0 },
    }
}

// Stores a violation at a place of a lent list, and nothing past the end.
pub fn store_violation(list: &mut [[u64; VIOLATION_WORDS]], index: usize, violation: Violation)
    ensures { violations_in list.new ≡ set (violations_in list.old) index violation }
{
    // Kept: with `get_mut` the proof didn't close, since what the list then is has no name that an answer may cite.
    if index < list.len() {
        list[index] = [violation.tick, violation.step];
    }
}

// Whether the first comes before the second in a report: by step, then by tick.
#[tactic(auto, unfolding(crate::specs::Order::before))]
pub fn before(first: Violation, second: Violation) -> bool
    ensures { result ≡ before first second }
{
    (first.step, first.tick) < (second.step, second.tick)
}
