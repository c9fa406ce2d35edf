// A whole text: one step after another, up to its end or to what is misspelt.
ghost use Rattle.std.specs.Prelude.{◌≡◌, length};
ghost use Rattle.refusal.specs.Answer.{answer_of};
ghost use Rattle.text_to_body.specs.Cursors.{answer_at, CursorFits, Reached, Translated};

use crate::cursor::{Cursor, Mode, Work};
use refusal::Refusal;
use text_pieces::rule_start;

impl<'a> Work<'a> {
    // From a cursor to the text's end; no answer where the text is misspelt.
    fn go_on(&mut self, start: Cursor) -> Option<Cursor>
        requires { CursorFits self.old.text.now start }
        ensures room { length self.new.bytes ≡ length self.old.bytes }
        ensures reached { Reached (answer_at self.old.text.now self.old.frames self.old.names self.old.bytes start) self.new.bytes result }
    {
        let mut cursor = start;
        loop {
            cursor = match cursor.mode {
                Mode::Before => self.begin_formula(cursor)?,
                Mode::After => self.end_formula(cursor)?,
                Mode::Whole => break,
            };
        }
        Some(cursor)
    }

    // Writes the body of the text, whose bytes may still be refused, and answers its length: refusals 25, 26. The rule's own name stands at byte 8.
    pub(crate) fn translate(&mut self) -> Result<usize, Refusal>
        ensures room { length self.new.bytes ≡ length self.old.bytes }
        ensures translated { Translated self.old.text.now (answer_of result) self.new.bytes }
    {
        let Some(at) = rule_start(self.text) else {
            return Err(Refusal::Misspelt);
        };
        self.names[0] = 8;
        let start = Cursor {
            mode: Mode::Before,
            at,
            opened: 0,
            scope: 1,
            written: 0,
            resolved: true,
        };
        let Some(last) = self.go_on(start) else {
            return Err(Refusal::Misspelt);
        };
        if last.resolved {
            Ok(last.written)
        } else {
            Err(Refusal::UnboundName)
        }
    }
}
