// A set by value: its records in one struct, and thin functions over it.
#![tactic(auto)]

ghost use Rattle.std.specs.Prelude.{◌≡◌, min};
ghost use Rattle.set_values.specs.Values.{empty_values, rule_of_values, values_with};

use demand::Running;

mod opening;
mod record_words;
mod stepping;

pub use opening::{OpenedSet, open_set};
pub use stepping::{SteppedSet, step_set};

// The most rules of a sheet, and so the most records of a set.
pub const MOST_RULES: usize = 32;

// The records of a set: the first `lent` of the 32, all of them where `lent` is above 32.
// Kept: an array and a number, since a set by value has no heap, and `lent` counts the caller's records, which may be more.
#[derive(Clone, Copy)]
pub struct RuleSet {
    pub rules: [Running; MOST_RULES],
    pub lent: usize,
}

// How many records a set has of which so many are lent.
pub fn held_count(lent: usize) -> usize
    ensures { result ≡ min lent 32 }
{
    lent.min(MOST_RULES)
}

// A set of so many records, all of no rule.
pub fn empty_set(lent: usize) -> RuleSet
    ensures { result ≡ empty_values lent }
{
    RuleSet {
        rules: [Running::default(); MOST_RULES],
        lent,
    }
}

// The record at a place; one of no rule past the 32.
pub fn rule_of(set: RuleSet, index: usize) -> Running
    ensures { result ≡ rule_of_values set index }
{
    set.rules.get(index).copied().unwrap_or_default()
}

// The set with a rule in the record at a place, and as it was past the 32.
// Kept: with `get_mut` of the list the proof doesn't close, since the list after it has only a name of the check's own, that no proof may cite.
pub fn with_rule(mut set: RuleSet, index: usize, rule: Running) -> RuleSet
    ensures { result ≡ values_with set index rule }
{
    if index < MOST_RULES {
        set.rules[index] = rule;
    }
    set
}
