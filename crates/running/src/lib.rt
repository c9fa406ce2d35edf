// The records of a set's running rules as lent words, eight to a record, in the order and layout of the struct `Running`: what C lends.
#![tactic(auto)]

ghost use Rattle.std.specs.Prelude.{◌+◌, ◌*◌, ◌%◌, ◌/◌, ◌≡◌, get_or, set};
ghost use Rattle.demand.specs.SetContract.{no_rule};
ghost use Rattle.running.specs.Records.{rule_in, words_of, rules_in};

use demand::Running;

// The words of a record.
pub const RECORD_WORDS: usize = 8;

// How many numbers a half of a word can hold, and a word: word 4 has two fields, the next tick two words, the low half and the low word first.
const HALF_VALUES: u32 = 65536;

const WORD_VALUES: u64 = 4294967296;

// The tick of a low and a high word.
fn tick_of(low: u32, high: u32) -> u64
    ensures { result ≡ low + 4294967296 * high }
{
    u64::from(low) + WORD_VALUES * u64::from(high)
}

// The rule that a record's words hold.
// Kept: no `From`, since the struct `Running` and the array are of other crates.
fn rule_of(words: &[u32; RECORD_WORDS]) -> Running
    ensures { result ≡ rule_in words.now }
{
    Running {
        start: words[0],
        size: words[1],
        first: words[2],
        cells: words[3],
        delay: (words[4] % HALF_VALUES) as u16,
        opened: (words[4] / HALF_VALUES) as u16,
        live: words[5],
        next: tick_of(words[6], words[7]),
    }
}

// The words that a rule is stored as.
fn record_of(rule: Running) -> [u32; RECORD_WORDS]
    ensures { result ≡ words_of rule }
{
    [
        rule.start,
        rule.size,
        rule.first,
        rule.cells,
        u32::from(rule.delay) + HALF_VALUES * u32::from(rule.opened),
        rule.live,
        (rule.next % WORD_VALUES) as u32,
        (rule.next / WORD_VALUES) as u32,
    ]
}

// The rule of the record at a place; one of no rule past the end.
pub fn rule_at(records: &[[u32; RECORD_WORDS]], index: usize) -> Running
    ensures { result ≡ get_or (rules_in records.now) index no_rule }
{
    records.get(index).map_or(Running::default(), rule_of)
}

// Stores a rule in the record at a place, and nothing past the end.
// Kept: with `get_mut` of a slice the proof doesn't close, since it says nothing of the elements afterwards.
#[tactic(auto, using(crate::proofs::Fields::stored))]
pub fn store_rule(records: &mut [[u32; RECORD_WORDS]], index: usize, rule: Running)
    ensures { rules_in records.new ≡ set (rules_in records.old) index rule }
{
    if index < records.len() {
        records[index] = record_of(rule);
    }
}
