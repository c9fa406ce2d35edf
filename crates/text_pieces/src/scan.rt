// Runs of bytes and fixed words in a text.
ghost use Rattle.std.specs.Prelude.{◌≡◌, ◌+◌, ◌≤◌, length, drop};
ghost use Rattle.std.specs.List.{take_while};
ghost use Rattle.notation.specs.Notation.{between};
ghost use Rattle.notation.specs.Reading.{starts, run, one_digit};
ghost use Rattle.text_pieces.specs.Spots.{Found, word_read};

// A byte from lo to hi.
#[tactic(auto, unfolding(notation::specs::Notation::between))]
pub fn is_between(lo: u8, hi: u8, byte: u8) -> bool
    ensures { result ≡ between lo hi byte }
{
    (lo..=hi).contains(&byte)
}

// How many bytes from lo to hi a text begins with.
fn leading(text: &[u8], lo: u8, hi: u8) -> usize
    ensures { result ≡ length (take_while (between lo hi) text.now) }
{
    text.iter()
        .take_while(|byte| is_between(lo, hi, **byte))
        .count()
}

// How many bytes from lo to hi stand one after another at a position. The text is cut first: std's `skip` goes over each byte before the position.
#[tactic(auto, using(crate::proofs::Scanning::leading_there, crate::proofs::Scanning::leading_past))]
fn run_length(text: &[u8], at: usize, lo: u8, hi: u8) -> usize
    ensures { result ≡ length (take_while (between lo hi) (drop at text.now)) }
{
    match text.get(at..) {
        Some(rest) => leading(rest, lo, hi),
        None => 0,
    }
}

// The position after the longest run of bytes from lo to hi.
#[tactic(auto, using(crate::proofs::Scanning::run_counts))]
pub fn run_end(text: &[u8], at: usize, lo: u8, hi: u8) -> usize
    ensures { result ≡ at + length (run (between lo hi) (drop at text.now)) }
{
    at + run_length(text, at, lo, hi)
}

// The text at a position starts with a word.
#[tactic(auto, using(crate::proofs::Scanning::starts_rest, crate::proofs::Scanning::starts_past))]
pub fn starts_at(text: &[u8], at: usize, word: &[u8]) -> bool
    ensures { result ≡ starts word.now (drop at text.now) }
{
    match text.get(at..) {
        Some(rest) => rest.starts_with(word),
        None => word.is_empty(),
    }
}

// The position after a word, where it stands at a position.
#[tactic(auto, using(crate::proofs::Finding::word_there, crate::proofs::Finding::word_none, crate::proofs::Finding::word_fits))]
pub(crate) fn word_end(text: &[u8], at: usize, word: &[u8]) -> Option<usize>
    requires { 1 ≤ length word.now }
    ensures { Found text.now result (word_read word.now (drop at text.now)) }
{
    if starts_at(text, at, word) {
        Some(at + word.len())
    } else {
        None
    }
}

// The position after a digit, if there is one.
#[tactic(auto, using(crate::proofs::Scanning::digit_none, crate::proofs::Scanning::digit_found))]
pub(crate) fn digit_end(text: &[u8], at: usize) -> Option<usize>
    ensures { Found text.now result (one_digit (drop at text.now)) }
{
    let byte = *text.get(at)?;
    is_between(b'0', b'9', byte).then_some(at + 1)
}
