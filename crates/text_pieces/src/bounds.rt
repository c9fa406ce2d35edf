// Bounds in a text.
ghost use Rattle.std.specs.Prelude.{◌≤◌, length, drop};
ghost use Rattle.notation.specs.Reading.{read_base, read_offset, read_end};
ghost use Rattle.text_pieces.specs.Spots.{Found};

use crate::names::{is_word, name_end, numeral_end};
use crate::scan::{run_end, starts_at, word_end};

// The position after 0, infinity or a name, if one is there.
#[tactic(auto, using(crate::proofs::Parsing::base_zero, crate::proofs::Parsing::base_infinity, crate::proofs::Parsing::base_name, crate::proofs::Finding::word_fits))]
pub fn base_end(text: &[u8], at: usize) -> Option<usize>
    ensures { Found text.now result (read_base (drop at text.now)) }
{
    if starts_at(text, at, b"0") {
        Some(at + 1)
    } else if is_word(text, at, b"infinity") {
        Some(run_end(text, at, b'a', b'z'))
    } else {
        name_end(text, at)
    }
}

// The position after an offset or none; no answer where its digits are missing.
#[tactic(auto, using(crate::proofs::Parsing::offset_signed, crate::proofs::Parsing::offset_none))]
fn offset_end(text: &[u8], at: usize) -> Option<usize>
    requires { (1 ≤ at) × (at ≤ length text.now) }
    ensures { Found text.now result (read_offset (drop at text.now)) }
{
    let sign = word_end(text, at, b"+").or(word_end(text, at, b"-"));
    match sign {
        Some(digits) => numeral_end(text, digits),
        None => Some(at),
    }
}

// The position after a bound, if there is one.
#[tactic(auto, using(crate::proofs::Parsing::end_none, crate::proofs::Parsing::end_there))]
pub fn bound_end(text: &[u8], at: usize) -> Option<usize>
    ensures { Found text.now result (read_end (drop at text.now)) }
{
    let after_base = base_end(text, at)?;
    offset_end(text, after_base)
}
