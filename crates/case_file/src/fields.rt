// Lines of a file and fields of a line.
ghost use Rattle.std.specs.Prelude.{◌≡◌, ◌≤◌, ◌<◌, ◌==◌, ◌↔◌, ◌-◌, ◌++◌, [], ◌∷◌, ◌+◌, suc, length, take, drop, MatchOption, IfSome, IsSome, IsTrue, slice_index, ◌≢◌, position};
ghost use Rattle.case_file.specs.Places.{index_of, IsNamed};

// The place of the first such byte, if there is one.
fn place_of(text: &[u8], byte: u8) -> Option<usize>
    ensures { result ≡ position (λ each. each == byte) text.now }
{
    text.iter().position(|each| *each == byte)
}

// What stands before the first such byte and what stands behind it, if there is one.
#[tactic(auto, using(crate::proofs::Finding::found_at, crate::proofs::Finding::found_none))]
pub(crate) fn split_at_byte<'a>(text: &'a [u8], byte: u8) -> Option<(&'a [u8], &'a [u8])>
    ensures found { IsSome result ↔ (index_of byte text.now < length text.now) }
    ensures before { IfSome result (λ parts. parts.0.now ≡ take (index_of byte text.now) text.now) }
    ensures behind { IfSome result (λ parts. parts.1.now ≡ drop (index_of byte text.now + 1) text.now) }
{
    let at = place_of(text, byte)?;
    Some((&text[..at], &text[at + 1..]))
}

// What stands before the first bar and what stands behind it, if there is a bar.
pub fn split_bar<'a>(text: &'a [u8]) -> Option<(&'a [u8], &'a [u8])>
    ensures found { IsSome result ↔ (index_of 124 text.now < length text.now) }
    ensures before { IfSome result (λ parts. parts.0.now ≡ take (index_of 124 text.now) text.now) }
    ensures behind { IfSome result (λ parts. parts.1.now ≡ drop (index_of 124 text.now + 1) text.now) }
{
    split_at_byte(text, b'|')
}

// What stands before the first bar; all where there is none.
#[tactic(auto, using(crate::proofs::Finding::cut_before, crate::proofs::Finding::whole_before))]
pub fn to_bar<'a>(text: &'a [u8]) -> &'a [u8]
    ensures { result.now ≡ take (index_of 124 text.now) text.now }
{
    match place_of(text, b'|') {
        Some(at) => &text[..at],
        None => text,
    }
}

// What stands after the first bar; nothing where there is none.
#[tactic(auto, using(crate::proofs::Finding::found_at, crate::proofs::Finding::cut_behind, crate::proofs::Finding::none_behind))]
pub fn past_bar<'a>(text: &'a [u8]) -> &'a [u8]
    ensures { result.now ≡ drop (suc (index_of 124 text.now)) text.now }
{
    match place_of(text, b'|') {
        Some(at) => &text[at + 1..],
        None => &[],
    }
}

// Whether a line is a case: not empty, and no comment.
pub fn is_case(line: &[u8]) -> bool
    ensures { IsTrue result ↔ (0 < length line.now) × (slice_index line.now 0 ≢ 35) }
{
    !matches!(line, [] | [b'#', ..])
}

// The name of a case and its fields: what stands before the first bar and the blank in front of it, and what stands behind the bar.
pub fn split_name<'a>(line: &'a [u8]) -> Option<(&'a [u8], &'a [u8])>
    ensures found { IsSome result ↔ IsNamed line.now }
    ensures name { IfSome result (λ parts. parts.0.now ≡ take (index_of 124 line.now - 1) line.now) }
    ensures fields { IfSome result (λ parts. parts.1.now ≡ drop (index_of 124 line.now + 1) line.now) }
{
    match split_bar(line)? {
        ([name @ .., b' '], fields) if !name.is_empty() => Some((name, fields)),
        _ => None,
    }
}
