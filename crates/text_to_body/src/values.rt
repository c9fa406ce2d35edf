// Offsets as 16-bit numbers.
ghost use Rattle.std.specs.Prelude.{◌≡◌, ℕ, ◌+◌, ◌-◌, ◌*◌, ◌%◌, ◌≤◌, ◌<◌, drop, List};
ghost use Rattle.notation.specs.Notation.{digit, Base, Offset, end};
ghost use Rattle.notation.specs.Reading.{run, read_offset, read_end, got};
ghost use Rattle.notation.specs.Bodies.{value_on, offset_word};

use text_pieces::{base_end, is_between, starts_at};

// The number with one more digit, in 16 bits.
fn with_digit(number: usize, byte: u8) -> usize
    requires { (number < 65536) × (48 ≤ byte) }
    ensures { (result ≡ (number * 10 + (byte - 48)) % 65536) × (result < 65536) }
{
    (number * 10 + usize::from(byte - b'0')) % 65536
}

// The number that the digits at the start of a text say.
fn leading_value(text: &[u8]) -> usize
    ensures { (result ≡ value_on 0 (run digit text.now)) × (result < 65536) }
{
    let mut number: usize = 0;
    for byte in text {
        if !is_between(b'0', b'9', *byte) {
            return number;
        }
        number = with_digit(number, *byte);
    }
    number
}

// The number that the digits at a position say.
#[tactic(auto, using(crate::proofs::Scopes::value_there, crate::proofs::Scopes::value_past))]
fn value_at(text: &[u8], at: usize) -> usize
    ensures { (result ≡ value_on 0 (run digit (drop at text.now))) × (result < 65536) }
{
    match text.get(at..) {
        Some(rest) => leading_value(rest),
        None => 0,
    }
}

// The offset at a position, as a 16-bit word.
fn offset_at(text: &[u8], at: usize) -> usize
    ensures { (result < 65536) × ((offset : Offset) (rest : List ℕ) → read_offset (drop at text.now) ≡ got offset rest → result ≡ offset_word offset) }
{
    if starts_at(text, at, b"+") {
        value_at(text, at + 1)
    } else if starts_at(text, at, b"-") {
        (65536 - value_at(text, at + 1)) % 65536
    } else {
        0
    }
}

// The offset of the bound at a position, as a 16-bit word.
pub(crate) fn bound_offset(text: &[u8], at: usize) -> usize
    ensures { (result < 65536) × ((base : Base) (offset : Offset) (rest : List ℕ) → read_end (drop at text.now) ≡ got (end base offset) rest → result ≡ offset_word offset) }
{
    match base_end(text, at) {
        Some(after_base) => offset_at(text, after_base),
        None => 0,
    }
}
