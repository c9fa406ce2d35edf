// Rules as text: a body from the text that a seismologist typed, and a body as such a text.
ghost use Rattle.std.specs.Prelude.{◌≡◌, length};
ghost use Rattle.refusal.specs.Answer.{or_kept, number};
ghost use Rattle.notation.specs.Bodies.{body_of_text, buffer_with};
ghost use Rattle.notation.specs.Printing.{text_of_body};

use refusal::put_answer;

// Writes the body of a rule's text at the start of the buffer and answers its length: refusals 25, 26, 4 to 10, 23, 24, 22.
pub fn sw_rule_from_text(text: &[u8], body: &mut [u8], written: &mut usize) -> u32
    ensures value { result ≡ number (body_of_text text.now (length body.old)) }
    ensures body_after { body.new ≡ buffer_with (body_of_text text.now (length body.old)) body.old }
    ensures written_after { written.new ≡ or_kept length (body_of_text text.now (length body.old)) written.old }
{
    put_answer(text_to_body::write_body(text, body), written)
}

// Writes a body as text at the start of the buffer and answers its length: refusals 4 to 10, 23, 24, 22.
pub fn sw_rule_to_text(body: &[u8], text: &mut [u8], written: &mut usize) -> u32
    ensures value { result ≡ number (text_of_body body.now (length text.old)) }
    ensures text_after { text.new ≡ buffer_with (text_of_body body.now (length text.old)) text.old }
    ensures written_after { written.new ≡ or_kept length (text_of_body body.now (length text.old)) written.old }
{
    put_answer(body_to_text::write_text(body, text), written)
}
