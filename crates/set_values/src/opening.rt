// Opening a set by value: its records as words, the opening of lent words, and the set from them.
ghost use Rattle.std.specs.Prelude.{◌≡◌, min, length};
ghost use Rattle.demand.specs.SetContract.{set_opening_of, SetOpenPromise};
ghost use Rattle.cell_runs.specs.Moves.{Stands};
ghost use Rattle.set_opening.specs.Opening.{set_open_answer};
ghost use Rattle.set_values.specs.Values.{held_rules, OthersKept};

use crate::record_words::{read_words, write_words};
use crate::{MOST_RULES, RuleSet, held_count};
use refusal::Refusal;
use running::RECORD_WORDS;

// Whether the set was opened, and the set as it is then.
// Kept: document 01, "Forms", asks for a set by value, so `open_set` and `step_set` take the set by value and hand it back beside the answer (a `Result`), and not
// through a `&mut`; README names them so.
#[derive(Clone, Copy)]
pub struct OpenedSet {
    pub answer: Result<(), Refusal>,
    pub set: RuleSet,
}

// Opens a set by words for as many records as it has.
fn open_by_words(
    sheet: &[u8],
    set: RuleSet,
    words: &mut [[u32; RECORD_WORDS]],
    history: &mut [u8],
    cells: &[u32],
) -> OpenedSet
    requires { length words.old ≡ min set.lent 32 }
    ensures { SetOpenPromise Stands (set_opening_of (set_open_answer result.answer sheet.now (held_rules result.set)) sheet.now (held_rules set) history.old cells.now (held_rules result.set) history.new) × OthersKept set result.set }
{
    write_words(set, words);
    let answer = set_opening::open(sheet, words, history, cells);
    let opened = read_words(set, words);
    OpenedSet {
        answer,
        set: opened,
    }
}

// Opens a set, as `set_opening::open` does with the records that it holds.
pub fn open_set(sheet: &[u8], set: RuleSet, history: &mut [u8], cells: &[u32]) -> OpenedSet
    ensures { SetOpenPromise Stands (set_opening_of (set_open_answer result.answer sheet.now (held_rules result.set)) sheet.now (held_rules set) history.old cells.now (held_rules result.set) history.new) × OthersKept set result.set }
{
    let mut words = [[0u32; RECORD_WORDS]; MOST_RULES];
    let count = held_count(set.lent);
    open_by_words(sheet, set, &mut words[..count], history, cells)
}
