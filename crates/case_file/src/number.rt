// Digits and decimal numbers.
ghost use Rattle.std.specs.Prelude.{◌≡◌, ◌≤◌, ◌<◌, ◌↔◌, length, take, drop, IfSome, IsSome};
ghost use Rattle.std.specs.Str.Parse.{AllDigits, digits_value};
ghost use Rattle.case_file.specs.Digits.{digit_value, digit_count, number_of, BeginsWithNumber};

use std::str;

// One tick more than the longest recording has.
const LARGEST: usize = 65536;

// What a hexadecimal digit is worth, in small letters.
#[tactic(auto, unfolding(crate::specs::Digits::digit_value))]
pub(crate) fn digit(byte: u8) -> Option<u8>
    ensures value { result ≡ digit_value byte }
    ensures bound { IfSome result (λ worth. worth < 16) }
{
    match byte {
        b'0'..=b'9' => Some(byte - b'0'),
        b'a'..=b'f' => Some(byte - b'a' + 10),
        _ => None,
    }
}

// How many decimal digits a text begins with.
fn digit_count(text: &[u8]) -> usize
    ensures value { result ≡ digit_count text.now }
    ensures bound { result ≤ length text.now }
{
    text.iter().take_while(|byte| byte.is_ascii_digit()).count()
}

// The number of some digits, if there is one and it is none above 65,536.
fn number_of(digits: &[u8]) -> Option<usize>
    requires { AllDigits 10 digits.now }
    ensures found { IsSome result ↔ (0 < length digits.now) × (digits_value 10 digits.now ≤ 65536) }
    ensures value { IfSome result (λ number. number ≡ digits_value 10 digits.now) }
{
    let text = str::from_utf8(digits).ok()?;
    let number = text.parse::<usize>().ok()?;
    if number <= LARGEST {
        Some(number)
    } else {
        None
    }
}

// The decimal number at the front of a text, and what stands behind it. A number above 65,536, one tick more than the longest recording, counts as none.
#[tactic(auto, using(crate::proofs::Finding::front_digits))]
pub fn split_number<'a>(text: &'a [u8]) -> Option<(usize, &'a [u8])>
    ensures found { IsSome result ↔ BeginsWithNumber text.now }
    ensures value { IfSome result (λ found. found.0 ≡ number_of text.now) }
    ensures rest { IfSome result (λ found. found.1.now ≡ drop (digit_count text.now) text.now) }
{
    let (digits, rest) = text.split_at(digit_count(text));
    let number = number_of(digits)?;
    Some((number, rest))
}
