// The refusals of one formula's own bytes, in 01's order: "code present (4), known (5), 9, its fixed bytes present (4), then for a flag 6, 7;
// for each bound" what crate::bounds tests.
ghost use Rattle.std.specs.Prelude.{◌≡◌, not, ◌&&◌, ◌||◌, ◌+◌, ◌≤◌, ◌<◌, leb, ltb, eqb, length};
ghost use Rattle.refusal.specs.Answer.{number, answer_of};
ghost use Rattle.words.specs.Words.{byte};
ghost use Rattle.rule.specs.Body.{fixed, after_code, head};
ghost use Rattle.formula_bytes.specs.Checks.{head_number};

use crate::bounds::bound_check;
use nodes::{FLAG_CODE_BYTE, FORALL_CODE_BYTE, NESTED};
use refusal::Refusal;
use words::byte_after;

// A flag's variable and flag, inside `depth` quantifiers.
#[tactic(auto, using(crate::proofs::Refusals::contents_6, crate::proofs::Refusals::contents_7, crate::proofs::Refusals::contents_flag))]
fn flag_check(body: &[u8], at: usize, depth: usize) -> Result<(), Refusal>
    requires { byte body.now at ≡ 1 }
    ensures { number (answer_of result) ≡ head_number (after_code body.now at depth) }
{
    if depth < byte_after(body, at, 1) {
        return Err(Refusal::UnboundVariable);
    }
    if 7 < byte_after(body, at, 2) {
        return Err(Refusal::NoSuchFlag);
    }
    Ok(())
}

// A quantifier's two bounds, inside `depth` others.
#[tactic(auto, using(refusal::proofs::Answers::handed_on, refusal::proofs::Positive::not_zero, crate::proofs::Refusals::contents_first, crate::proofs::Refusals::contents_second))]
fn bounds_check(body: &[u8], at: usize, depth: usize) -> Result<(), Refusal>
    requires { (byte body.now at ≡ 5) × (at + 9 ≤ length body.now) }
    ensures { number (answer_of result) ≡ head_number (after_code body.now at depth) }
{
    bound_check(body, at + 1, depth)?;
    bound_check(body, at + 5, depth)
}

// How many bytes a formula has before its parts.
#[tactic(auto, unfolding(rule::specs::Body::fixed))]
fn fixed_bytes(code: u8) -> usize
    ensures { result ≡ fixed code }
{
    match code {
        FLAG_CODE_BYTE => 3,
        FORALL_CODE_BYTE => 9,
        _ => 1,
    }
}

fn code_known(code: u8) -> bool
    ensures { result ≡ (leb 1 code && leb code 5) }
{
    FLAG_CODE_BYTE <= code && code <= FORALL_CODE_BYTE
}

// It is no 65th formula and no 5th nested quantifier.
fn formula_fits(code: u8, depth: usize, left: usize) -> bool
    ensures { result ≡ (leb 1 left && (not (eqb code 5) || ltb depth 4)) }
{
    1 <= left && (code != FORALL_CODE_BYTE || depth < NESTED)
}

// The formula's own bytes at a position, inside `depth` quantifiers and with some formulas left.
#[tactic(auto, using(crate::proofs::Refusals::head_4, crate::proofs::Refusals::head_5, crate::proofs::Refusals::head_9, crate::proofs::Refusals::head_4b, crate::proofs::Refusals::head_contents, crate::proofs::Refusals::contents_plain, crate::proofs::Refusals::fixed_of_forall))]
pub fn head_check(body: &[u8], at: usize, depth: usize, left: usize) -> Result<(), Refusal>
    ensures { number (answer_of result) ≡ head_number (head body.now at depth left) }
{
    if body.len() <= at {
        return Err(Refusal::BodyEndsEarly);
    }
    let code = body[at];
    if !code_known(code) {
        return Err(Refusal::UnknownCode);
    }
    if !formula_fits(code, depth, left) {
        return Err(Refusal::BodyTooLarge);
    }
    if body.len() - at < fixed_bytes(code) {
        return Err(Refusal::BodyEndsEarly);
    }
    match code {
        FLAG_CODE_BYTE => flag_check(body, at, depth),
        FORALL_CODE_BYTE => bounds_check(body, at, depth),
        _ => Ok(()),
    }
}
