// A body as text: "monitor x : ..", with the names x, y, z, u, v by nesting.
#![tactic(auto)]

mod formula;
mod pieces;
mod writer;

ghost use Rattle.std.specs.Prelude.{length};
ghost use Rattle.refusal.specs.Answer.{answer_of};
ghost use Rattle.nodes.specs.Table.{formula_in};
ghost use Rattle.notation.specs.Bodies.{fitted, Writes};
ghost use Rattle.notation.specs.Printing.{text_of_body};
ghost use Rattle.body_to_text.specs.Parts.{rule_text};
ghost use Rattle.body_to_text.specs.Writable.{Writable};

use nodes::TABLE_WORDS;
use refusal::Refusal;
use writer::Writer;

// Writes the text of the rule whose table is filled.
fn write_rule(nodes: &[u32; TABLE_WORDS], out: &mut [u8]) -> Result<usize, Refusal>
    requires { Writable (formula_in 64 nodes.now 0 0) }
    ensures { Writes (fitted (length out.old) (rule_text nodes.now)) (answer_of result) out.old out.new }
{
    let mut writer = Writer {
        bytes: [0; 4096],
        at: 0,
    };
    writer.put_rule(nodes);
    notation::deliver(&writer.bytes[..writer.at], out)
}

// Writes a body as text at the start of a lent buffer and answers the text's length: refusals 4 to 10, 23 and 24 of the body, and last 22 where the
// buffer is shorter than the text.
pub fn write_text(body: &[u8], out: &mut [u8]) -> Result<usize, Refusal>
    ensures { Writes (text_of_body body.now (length out.old)) (answer_of result) out.old out.new }
{
    let mut nodes = [0u32; TABLE_WORDS];
    let reading = reader::read_body(body, &mut nodes);
    reading?;
    write_rule(&nodes, out)
}
