// The refusals of one bound, in the order 5, 6, 23, 24, 8 of document 02, point 1. The tests of 6 to 8 are functions of their own, each equal to the
// definition's.
ghost use Rattle.std.specs.Prelude.{◌≡◌, not, ◌||◌, ◌+◌, ◌≤◌, leb, eqb, length, nat_abs};
ghost use Rattle.refusal.specs.Answer.{number, answer_of};
ghost use Rattle.rule.specs.Body.{signed, require_bound, negate_head};
ghost use Rattle.formula_bytes.specs.Checks.{head_number};

use nodes::{INFINITY_KIND_BYTE, VARIABLE_KIND_BYTE};
use refusal::Refusal;
use words::{byte_after, word_at};

// The largest offset, and the least of the 16-bit words that stand for its opposite and what is nearer to 0.
const LARGEST_OFFSET: usize = 4095;

const LEAST_NEGATIVE: usize = 65536 - LARGEST_OFFSET;

// Kind 2 names a variable that is bound here, inside `depth` quantifiers; the other kinds name none.
fn variable_is_bound(kind: u8, variable: usize, depth: usize) -> bool
    ensures { result ≡ (not (eqb kind 2) || leb variable depth) }
{
    kind != VARIABLE_KIND_BYTE || variable <= depth
}

// The variable byte of position 0 and infinity is 0.
fn variable_byte_fits(kind: u8, variable: usize) -> bool
    ensures { result ≡ (eqb kind 2 || eqb variable 0) }
{
    kind == VARIABLE_KIND_BYTE || variable == 0
}

// Infinity has no offset: its 16 bits are 0.
fn offset_allowed(kind: u8, bits: usize) -> bool
    ensures { result ≡ (not (eqb kind 1) || eqb bits 0) }
{
    kind != INFINITY_KIND_BYTE || bits == 0
}

// The offset that the 16 bits say lies from -4,095 to 4,095.
#[tactic(auto, unfolding(rule::specs::Body::signed))]
fn offset_in_range(bits: usize) -> bool
    ensures { result ≡ leb (nat_abs (signed bits)) 4095 }
{
    bits <= LARGEST_OFFSET || LEAST_NEGATIVE <= bits
}

// The bound whose 4 bytes start at a position, inside `depth` quantifiers.
#[tactic(auto, using(crate::proofs::Refusals::bound_5, crate::proofs::Refusals::bound_6, crate::proofs::Refusals::bound_23, crate::proofs::Refusals::bound_24, crate::proofs::Refusals::bound_8, crate::proofs::Refusals::bound_fine))]
pub(crate) fn bound_check(body: &[u8], at: usize, depth: usize) -> Result<(), Refusal>
    requires { at + 4 ≤ length body.now }
    ensures { number (answer_of result) ≡ head_number (require_bound body.now at depth negate_head) }
{
    let kind = body[at];
    let variable = byte_after(body, at, 1);
    let bits = word_at(body, at + 2);
    let is_bound = variable_is_bound(kind, variable, depth);
    let byte_fits = variable_byte_fits(kind, variable);
    let allowed = offset_allowed(kind, bits);
    let in_range = offset_in_range(bits);
    if VARIABLE_KIND_BYTE < kind {
        return Err(Refusal::UnknownCode);
    }
    if !is_bound {
        return Err(Refusal::UnboundVariable);
    }
    if !byte_fits {
        return Err(Refusal::VariableByteNotZero);
    }
    if !allowed {
        return Err(Refusal::OffsetOnInfinity);
    }
    if !in_range {
        return Err(Refusal::OffsetOutOfRange);
    }
    Ok(())
}
