// Names in scope: the positions in the text where they stand, the innermost last.
ghost use Rattle.std.specs.Prelude.{◌≡◌, ◌≤◌, length, drop, set};
ghost use Rattle.notation.specs.Notation.{letter, same};
ghost use Rattle.notation.specs.Reading.{run};
ghost use Rattle.notation.specs.Bodies.{seek};
ghost use Rattle.text_to_body.specs.Work.{in_scope, sought};

use text_pieces::{is_word, run_end};

// A text, and where the names in scope stand in it.
#[derive(Clone, Copy)]
pub(crate) struct Scope<'a> {
    pub text: &'a [u8],
    pub names: &'a [usize],
}

impl<'a> Scope<'a> {
    // The names at two positions are the same.
    fn same_name(&self, first: usize, second: usize) -> bool
        requires { second ≤ length self.now.text.now }
        ensures { result ≡ same (run letter (drop first self.now.text.now)) (run letter (drop second self.now.text.now)) }
    {
        let end = run_end(self.text, second, b'a', b'z');
        is_word(self.text, first, &self.text[second..end])
    }

    // The variable of the name at a position, if it is bound.
    pub(crate) fn variable(&self, at: usize) -> Option<usize>
        requires { at ≤ length self.now.text.now }
        ensures { sought result ≡ seek (in_scope self.now) (run letter (drop at self.now.text.now)) }
    {
        for variable in (0..self.names.len()).rev() {
            if self.same_name(self.names[variable], at) {
                return Some(variable);
            }
        }
        None
    }
}

// Writes a byte; nothing where the position is beyond the buffer.
pub(crate) fn put(out: &mut [u8], at: usize, byte: u8)
    ensures { out.new ≡ set out.old at byte }
{
    if at < out.len() {
        out[at] = byte;
    }
}
