// One step after a formula: what is open around it goes on or is closed.
ghost use Rattle.std.specs.Prelude.{◌≡◌, Some, List, ℕ, ◌-◌, ◌≤◌, length, drop, get_or};
ghost use Rattle.notation.specs.Reading.{Joint, joint, got};
ghost use Rattle.notation.specs.Bodies.{joint_code};
ghost use Rattle.text_to_body.specs.declared.cursor.Mode.TheVariants.{After};
ghost use Rattle.text_to_body.specs.declared.cursor.Frame.TheVariants.{Second, Range, First};
ghost use Rattle.text_to_body.specs.Cursors.{CursorFits, Stepped};

use crate::codes::{BESIDE_CODE_BYTE, THEN_CODE_BYTE};
use crate::cursor::{Cursor, Frame, Mode, Work};
use crate::scope::put;
use text_pieces::{joint_end, starts_at};

// The code of the connective at a position: 03 for "&&", 04 for "/\".
fn joint_code(text: &[u8], at: usize) -> u8
    ensures { (connective : Joint) (rest : List ℕ) → joint (drop at text.now) ≡ got connective rest → result ≡ joint_code connective }
{
    if starts_at(text, at, b" && ") {
        return THEN_CODE_BYTE;
    }
    BESIDE_CODE_BYTE
}

impl<'a> Work<'a> {
    // At the text's end nothing may be open.
    fn end_text(&mut self, cursor: Cursor) -> Option<Cursor>
        requires { (cursor.mode ≡ After) × CursorFits self.old.text.now cursor × (cursor.opened ≡ 0) }
        ensures { Stepped self.old cursor self.new result }
    {
        if cursor.at != self.text.len() {
            return None;
        }
        Some(Cursor {
            mode: Mode::Whole,
            ..cursor
        })
    }

    // After a bracket's second part.
    fn end_bracket(&mut self, cursor: Cursor) -> Option<Cursor>
        requires { (cursor.mode ≡ After) × CursorFits self.old.text.now cursor × (1 ≤ cursor.opened) × (get_or self.old.frames (cursor.opened - 1) Second ≡ Second) }
        ensures { Stepped self.old cursor self.new result }
    {
        if !starts_at(self.text, cursor.at, b")") {
            return None;
        }
        Some(Cursor {
            at: cursor.at + 1,
            opened: cursor.opened - 1,
            ..cursor
        })
    }

    // After a quantifier's formula: its name goes out of scope.
    fn end_range(&mut self, cursor: Cursor) -> Cursor
        requires { (cursor.mode ≡ After) × CursorFits self.old.text.now cursor × (1 ≤ cursor.opened) × (get_or self.old.frames (cursor.opened - 1) Second ≡ Range) }
        ensures { Stepped self.old cursor self.new (Some result) }
    {
        Cursor {
            opened: cursor.opened - 1,
            scope: cursor.scope.saturating_sub(1),
            ..cursor
        }
    }

    // After a bracket's first part, whose code is to stand at byte `at`: now it is known which code the bracket has.
    fn end_first(&mut self, cursor: Cursor, at: u16) -> Option<Cursor>
        requires { (cursor.mode ≡ After) × CursorFits self.old.text.now cursor × (1 ≤ cursor.opened) × (get_or self.old.frames (cursor.opened - 1) Second ≡ First at) }
        ensures { Stepped self.old cursor self.new result }
    {
        let end = joint_end(self.text, cursor.at)?;
        let code = joint_code(self.text, cursor.at);
        put(&mut self.bytes, usize::from(at), code);
        self.frames[cursor.opened - 1] = Frame::Second;
        Some(Cursor {
            mode: Mode::Before,
            at: end,
            ..cursor
        })
    }

    // By the innermost frame that is open.
    pub(crate) fn end_formula(&mut self, cursor: Cursor) -> Option<Cursor>
        requires { (cursor.mode ≡ After) × CursorFits self.old.text.now cursor }
        ensures { Stepped self.old cursor self.new result }
    {
        if cursor.opened == 0 {
            return self.end_text(cursor);
        }
        match self.frames[cursor.opened - 1] {
            Frame::Second => self.end_bracket(cursor),
            Frame::Range => Some(self.end_range(cursor)),
            Frame::First(at) => self.end_first(cursor, at),
        }
    }
}
