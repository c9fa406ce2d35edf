// Rules typed as in the paper (document 02, point 2): what such a rule is, its text, its body, and the text of a body, as definitions (specs/) with
// their laws (proofs/); and what text to body and body to text share.
#![tactic(auto)]

ghost use Rattle.std.specs.Prelude.{length};
ghost use Rattle.refusal.specs.Answer.{answer_of};
ghost use Rattle.notation.specs.Bodies.{fitted, Writes};

use refusal::Refusal;

// Puts bytes at the start of a lent buffer and answers how many, or refuses with 22.
#[tactic(auto, unfolding(crate::specs::Bodies::fitted))]
pub fn deliver(bytes: &[u8], out: &mut [u8]) -> Result<usize, Refusal>
    ensures { Writes (fitted (length out.old) bytes.now) (answer_of result) out.old out.new }
{
    if out.len() < bytes.len() {
        return Err(Refusal::BufferTooShort);
    }
    out[..bytes.len()].copy_from_slice(bytes);
    Ok(bytes.len())
}
