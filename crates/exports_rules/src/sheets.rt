// Reading and writing sheets.
ghost use Rattle.std.specs.Prelude.{◌≡◌, length};
ghost use Rattle.refusal.specs.Answer.{or_kept, number};
ghost use Rattle.sheet.specs.Sheet.{rule_place};
ghost use Rattle.sheet_writer.specs.Writing.{sheet_length, buffer_after};

use refusal::put_answer;

// Where a rule's body lies in its sheet: refusals 1 to 3.
pub fn sw_rule_place(sheet: &[u8], rule: usize, start: &mut usize, size: &mut usize) -> u32
    ensures value { result ≡ number (rule_place sheet.now rule) }
    ensures start_after { start.new ≡ or_kept (λ place. place.start) (rule_place sheet.now rule) start.old }
    ensures size_after { size.new ≡ or_kept (λ place. place.size) (rule_place sheet.now rule) size.old }
{
    match sheet::find_rule(sheet, rule) {
        Ok(place) => {
            *start = place.start;
            *size = place.size;
            0
        }
        Err(refusal) => refusal::number(refusal),
    }
}

// Writes the sheet of these bodies at the start of the buffer and answers its length: refusals 1, 2, 22.
pub fn sw_write_sheet(lengths: &[u16], bodies: &[u8], out: &mut [u8], written: &mut usize) -> u32
    ensures value { result ≡ number (sheet_length lengths.now bodies.now (length out.old)) }
    ensures out_after { out.new ≡ buffer_after lengths.now bodies.now out.old }
    ensures written_after { written.new ≡ or_kept (λ size. size) (sheet_length lengths.now bodies.now (length out.old)) written.old }
{
    put_answer(sheet_writer::write_sheet(lengths, bodies, out), written)
}
