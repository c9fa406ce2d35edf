// Bytes that are written as hexadecimal digits.
ghost use Rattle.std.specs.Prelude.{◌≤◌, ◌<◌, length, IfOk, IfSome};
ghost use Rattle.io.specs.Counts.{IsPrefixLen};

use crate::number::{digit, split_number};

// What a text is that is no bytes, or has more of them than there is room for.
#[derive(Clone, Copy, Debug, PartialEq, Eq)]
pub struct Malformed;

// One piece of a text: a byte, and how many times it is meant. A blank is a byte no times.
#[derive(Clone, Copy)]
struct Piece {
    byte: u8,
    times: usize,
}

// The piece of a byte, from what stands behind it: the number of times if there is a star.
fn split_times<'a>(byte: u8, text: &'a [u8]) -> Option<(Piece, &'a [u8])>
    ensures { IfSome result (λ found. length found.1.now ≤ length text.now) }
{
    let (times, rest) = match text {
        [b'*', number @ ..] => split_number(number)?,
        _ => (1, text),
    };
    Some((Piece { byte, times }, rest))
}

// The piece at the front of a text, and what stands behind it.
fn split_piece<'a>(text: &'a [u8]) -> Option<(Piece, &'a [u8])>
    ensures { IfSome result (λ found. length found.1.now < length text.now) }
{
    match text {
        [b' ', rest @ ..] => Some((Piece { byte: 0, times: 0 }, rest)),
        [high, low, rest @ ..] => split_times(16 * digit(*high)? + digit(*low)?, rest),
        _ => None,
    }
}

// The bytes of a text, at the front of out, and how many there are.
pub fn read_bytes(text: &[u8], out: &mut [u8]) -> Result<usize, Malformed>
    ensures { IfOk result (λ count. IsPrefixLen count out.new) }
{
    // Kept: a while, since it goes on by pieces of the text, and no index is counted.
    let mut left = text;
    let mut count: usize = 0;
    while !left.is_empty() {
        let (piece, rest) = split_piece(left).ok_or(Malformed)?;
        if out.len() - count < piece.times {
            return Err(Malformed);
        }
        let end = count + piece.times;
        out[count..end].fill(piece.byte);
        count = end;
        left = rest;
    }
    Ok(count)
}
