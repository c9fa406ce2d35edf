// What is wrong, in words: the sentence of each refusal's number, in ASCII.
#![tactic(auto, unfolding(crate::specs::Sentences::sentence_of, crate::specs::Sentences::ascii))]

ghost use Rattle.std.specs.Prelude.{◌≡◌, ◌++◌, ◌≤◌, ◌<◌, length, take, drop};
ghost use Rattle.refusal_text.specs.Sentences.{sentence_of};

// The sentence of a number: of the sheet, a body, a rule's figures and a recording, what a call is lent, a bound, a rule's text, a set.
pub fn sentence_text(number: u32) -> &'static str
    ensures upper_bound { length result.now < 128 }
    ensures value { result.now ≡ sentence_of number }
{
    match number {
        1 => "sheet empty, not 1 to 32 rules, or its table of contents is cut short",
        2 => "an entry of the sheet breaks the layout",
        3 => "no such rule",
        4 => "the body ends too early",
        5 => "unknown code or kind",
        6 => "a variable that is not bound here",
        7 => "a flag above 7",
        8 => "an offset outside -4,095 to 4,095",
        9 => "a 65th formula or a 5th nested quantifier",
        10 => "bytes left over after the formula",
        11 => "the delay is infinite",
        12 => "the delay is above 255",
        13 => "the history is infinite",
        14 => "the history is above 4,096",
        15 => "more than 4,096 cells",
        16 => "the recording is too long, or the tick is not in it",
        17 => "the history has a wrong length",
        18 => "the cell table is too short",
        19 => "the report is too short",
        20 => "tick numbers are used up",
        21 => "state and cells were not left by one opening and its steps",
        22 => "the buffer is too short",
        23 => "a bound of kind 0 or 1 whose variable byte is not 0",
        24 => "an infinity with an offset",
        25 => "the text is misspelt or above 4,096 bytes",
        26 => "a name that is not bound here",
        27 => "more than 4,096 cells in all rules",
        _ => "no such refusal",
    }
}

// Puts the sentence of a number at the front of a buffer, and answers its length: there is room for a byte more, and the bytes after it stay as they
// were. The second line is what `io` asks of a count.
pub fn sentence(number: u32, out: &mut [u8; 128]) -> usize
    ensures upper_bound { result < 128 }
    ensures upper_bound_2 { (result ≤ length out.new) × (result ≡ length (take result out.new)) }
    ensures value { result ≡ length (sentence_of number) }
    ensures out_after { out.new ≡ sentence_of number ++ drop result out.old }
{
    let text = sentence_text(number).as_bytes();
    out[..text.len()].copy_from_slice(text);
    text.len()
}
