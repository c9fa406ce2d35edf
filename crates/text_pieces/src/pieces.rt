// A formula's text before its first part, and the text between two parts.
ghost use Rattle.std.specs.Prelude.{drop};
ghost use Rattle.notation.specs.Reading.{read_flag, read_forall, read_token, joint};
ghost use Rattle.text_pieces.specs.Spots.{Found, Pieced};

use crate::bounds::bound_end;
use crate::names::name_end;
use crate::scan::{digit_end, word_end};

// How a formula starts, and the position after that.
#[derive(Clone, Copy, Debug, PartialEq, Eq)]
pub enum Piece {
    Flag(usize),
    Negate(usize),
    Open(usize),
    Forall(usize),
}

// The position after a name, a point and a digit, if they are there.
#[tactic(auto, using(crate::proofs::Parsing::flag_1, crate::proofs::Parsing::flag_2, crate::proofs::Parsing::flag_3))]
fn flag_end(text: &[u8], at: usize) -> Option<usize>
    ensures { Found text.now result (read_flag (drop at text.now)) }
{
    let after_name = name_end(text, at)?;
    let digit = word_end(text, after_name, b".")?;
    digit_end(text, digit)
}

// The position after what stands between "forall " and its formula, if it is there.
#[tactic(auto, using(crate::proofs::Parsing::forall_1, crate::proofs::Parsing::forall_2, crate::proofs::Parsing::forall_3, crate::proofs::Parsing::forall_4, crate::proofs::Parsing::forall_5, crate::proofs::Parsing::forall_6))]
fn forall_end(text: &[u8], at: usize) -> Option<usize>
    ensures { Found text.now result (read_forall (drop at text.now)) }
{
    let after_name = name_end(text, at)?;
    let first = word_end(text, after_name, b" in ")?;
    let after_first = bound_end(text, first)?;
    let second = word_end(text, after_first, b"..")?;
    let after_second = bound_end(text, second)?;
    word_end(text, after_second, b" : ")
}

// The start of a formula at a position, if there is one.
#[tactic(auto, using(crate::proofs::Parsing::piece_1, crate::proofs::Parsing::piece_2, crate::proofs::Parsing::piece_3, crate::proofs::Parsing::piece_4, crate::proofs::Parsing::piece_5, crate::proofs::Parsing::piece_6, crate::proofs::Parsing::piece_7))]
pub fn piece_at(text: &[u8], at: usize) -> Option<Piece>
    ensures { Pieced text.now at result (read_token (drop at text.now)) }
{
    if let Some(name) = word_end(text, at, b"@") {
        return Some(Piece::Flag(flag_end(text, name)?));
    }
    if let Some(part) = word_end(text, at, b"~") {
        return Some(Piece::Negate(part));
    }
    if let Some(part) = word_end(text, at, b"(") {
        return Some(Piece::Open(part));
    }
    let name = word_end(text, at, b"forall ")?;
    Some(Piece::Forall(forall_end(text, name)?))
}

// The position after a connective, if there is one.
#[tactic(auto, using(crate::proofs::Parsing::joint_found))]
pub fn joint_end(text: &[u8], at: usize) -> Option<usize>
    ensures { Found text.now result (joint (drop at text.now)) }
{
    word_end(text, at, b" && ").or(word_end(text, at, b" /\\ "))
}
