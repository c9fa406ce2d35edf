// A set's records as lent words, eight to a record, and back.
ghost use Rattle.std.specs.Prelude.{◌≡◌, ◌≤◌, length, take};
ghost use Rattle.running.specs.Records.{rules_in};
ghost use Rattle.set_values.specs.Values.{values_from};

use crate::RuleSet;
use running::{RECORD_WORDS, rule_at, store_rule};

// Writes the first records of a set, as many as there are places.
pub(crate) fn write_words(set: RuleSet, words: &mut [[u32; RECORD_WORDS]])
    requires { length words.old ≤ 32 }
    ensures { rules_in words.new ≡ take (length words.old) set.rules }
{
    for index in 0..words.len() {
        let rule = set.rules[index];
        store_rule(words, index, rule);
    }
}

// The set with its first records as the words have them.
pub(crate) fn read_words(mut set: RuleSet, words: &[[u32; RECORD_WORDS]]) -> RuleSet
    requires { length words.now ≤ 32 }
    ensures { result ≡ values_from set (rules_in words.now) }
{
    for index in 0..words.len() {
        set.rules[index] = rule_at(words, index);
    }
    set
}
