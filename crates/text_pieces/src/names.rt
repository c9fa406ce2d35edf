// Names and numerals in a text.
ghost use Rattle.std.specs.Prelude.{◌≡◌, length, drop};
ghost use Rattle.notation.specs.Notation.{letter, same, reserved, is_name};
ghost use Rattle.notation.specs.Reading.{run, read_name, read_numeral};
ghost use Rattle.text_pieces.specs.Spots.{Found};

use crate::scan::{run_end, starts_at};

// The run of letters at a position is this word.
#[tactic(auto, using(crate::proofs::Scanning::other_length, crate::proofs::Scanning::word_run))]
pub fn is_word(text: &[u8], at: usize, word: &[u8]) -> bool
    ensures { result ≡ same (run letter (drop at text.now)) word.now }
{
    let end = run_end(text, at, b'a', b'z');
    end - at == word.len() && starts_at(text, at, word)
}

// The run of letters at a position is one of the notation's words.
#[tactic(auto, unfolding(notation::specs::Notation::reserved))]
fn is_reserved(text: &[u8], at: usize) -> bool
    ensures { result ≡ reserved (run letter (drop at text.now)) }
{
    is_word(text, at, b"monitor")
        || is_word(text, at, b"forall")
        || is_word(text, at, b"in")
        || is_word(text, at, b"infinity")
}

// The run of `count` letters at a position is a name.
#[tactic(auto, using(crate::proofs::Parsing::name_short, crate::proofs::Parsing::name_long, crate::proofs::Parsing::name_fits))]
fn is_name(text: &[u8], at: usize, count: usize) -> bool
    requires { count ≡ length (run letter (drop at text.now)) }
    ensures { result ≡ is_name (run letter (drop at text.now)) }
{
    (1..=8).contains(&count) && !is_reserved(text, at)
}

// The position after the name at a position, if there is one.
#[tactic(auto, using(crate::proofs::Parsing::name_found))]
pub(crate) fn name_end(text: &[u8], at: usize) -> Option<usize>
    ensures { Found text.now result (read_name (drop at text.now)) }
{
    let end = run_end(text, at, b'a', b'z');
    is_name(text, at, end - at).then_some(end)
}

// The position after the numeral at a position, if there is one.
#[tactic(auto, using(crate::proofs::Parsing::numeral_short, crate::proofs::Parsing::numeral_long, crate::proofs::Parsing::numeral_there))]
pub(crate) fn numeral_end(text: &[u8], at: usize) -> Option<usize>
    ensures { Found text.now result (read_numeral (drop at text.now)) }
{
    let end = run_end(text, at, b'0', b'9');
    let count = end - at;
    (1..=4).contains(&count).then_some(end)
}
