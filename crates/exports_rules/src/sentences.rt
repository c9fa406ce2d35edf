// A refusal in words.
ghost use Rattle.std.specs.Prelude.{◌≡◌, length};
ghost use Rattle.refusal.specs.Answer.{or_kept, number};
ghost use Rattle.exports_rules.specs.Sentences.{sentence_length, with_sentence};

use refusal::Refusal;

// Writes the sentence of a refusal's number and a byte 0 at the start of the buffer, and answers the sentence's length: refusal 22.
pub fn sw_sentence(refused: u32, out: &mut [u8], written: &mut usize) -> u32
    ensures value { result ≡ number (sentence_length refused (length out.old)) }
    ensures out_after { out.new ≡ with_sentence refused out.old }
    ensures written_after { written.new ≡ or_kept (λ size. size) (sentence_length refused (length out.old)) written.old }
{
    let sentence = refusal_text::sentence_text(refused).as_bytes();
    let length = sentence.len();
    if out.len() <= length {
        return refusal::number(Refusal::BufferTooShort);
    }
    out[..length].copy_from_slice(sentence);
    out[length] = 0;
    *written = length;
    0
}
