// A rule's text turned into its body, without recursion: the text is read from left to right, with the open brackets and quantifiers in a table.
#![tactic(auto)]

mod begin;
mod codes;
mod cursor;
mod end;
mod scope;
mod stores;
mod translate;
mod values;

ghost use Rattle.std.specs.Prelude.{length};
ghost use Rattle.refusal.specs.Answer.{and_then, answer_of};
ghost use Rattle.notation.specs.Bodies.{checked, fitted, body_of_text, Writes};

use cursor::{Frame, Work};
use nodes::TABLE_WORDS;
use notation::deliver;
use reader::read_body;
use refusal::Refusal;

// Puts a body at the start of a lent buffer if the body reader takes it: refusals 4 to 10, 23, 24, and last 22.
fn write_if_legal(body: &[u8], out: &mut [u8]) -> Result<usize, Refusal>
    ensures { Writes (and_then (checked body.now) (fitted (length out.old))) (answer_of result) out.old out.new }
{
    let mut nodes = [0u32; TABLE_WORDS];
    read_body(body, &mut nodes)?;
    deliver(body, out)
}

// Writes the body of a rule's text at the start of a lent buffer and answers its length: refusals 25, 26, 4 to 10, 23, 24, and last 22.
pub fn write_body(text: &[u8], out: &mut [u8]) -> Result<usize, Refusal>
    ensures { Writes (body_of_text text.now (length out.old)) (answer_of result) out.old out.new }
{
    if 4096 < text.len() {
        return Err(Refusal::Misspelt);
    }
    let mut work = Work {
        text,
        frames: [Frame::Second; 4096],
        names: [0; 256],
        bytes: [0; 4096],
    };
    let length = work.translate()?;
    write_if_legal(&work.bytes[..length], out)
}
