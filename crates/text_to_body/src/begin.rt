// One step before a formula: its start is read, and what the body says of it is written.
ghost use Rattle.std.specs.Prelude.{◌≡◌, Some, ◌+◌, drop};
ghost use Rattle.notation.specs.Reading.{read_token};
ghost use Rattle.text_pieces.specs.Spots.{FlagAt, ForallAt};
ghost use Rattle.text_to_body.specs.declared.cursor.Mode.TheVariants.{Before};
ghost use Rattle.text_to_body.specs.Cursors.{CursorFits, Stepped};

use crate::cursor::{Cursor, Frame, Mode, Work};
use crate::scope::Scope;
use nodes::NOT_CODE_BYTE;
use text_pieces::{Piece, piece_at};

impl<'a> Work<'a> {
    // A flag: the text goes on at `end`.
    fn begin_flag(&mut self, cursor: Cursor, end: usize) -> Cursor
        requires { (cursor.mode ≡ Before) × CursorFits self.old.text.now cursor × FlagAt self.old.text.now (cursor.at + 1) end (read_token (drop cursor.at self.old.text.now)) }
        ensures { Stepped self.old cursor self.new (Some result) }
    {
        let scope = Scope {
            text: self.text,
            names: &self.names[..cursor.scope],
        };
        let bound = scope.write_flag(cursor.at + 1, &mut self.bytes, cursor.written);
        Cursor {
            mode: Mode::After,
            at: end,
            written: cursor.written + 3,
            resolved: cursor.resolved && bound,
            ..cursor
        }
    }

    // A quantifier: the text goes on at `end`. Its name is in scope there, and its bounds do not see it.
    fn begin_range(&mut self, cursor: Cursor, end: usize) -> Cursor
        requires { (cursor.mode ≡ Before) × CursorFits self.old.text.now cursor × ForallAt self.old.text.now (cursor.at + 7) end (read_token (drop cursor.at self.old.text.now)) }
        ensures { Stepped self.old cursor self.new (Some result) }
    {
        let name = cursor.at + 7;
        let scope = Scope {
            text: self.text,
            names: &self.names[..cursor.scope],
        };
        let bound = scope.write_forall(name, &mut self.bytes, cursor.written);
        self.names[cursor.scope] = name;
        self.frames[cursor.opened] = Frame::Range;
        Cursor {
            at: end,
            opened: cursor.opened + 1,
            scope: cursor.scope + 1,
            written: cursor.written + 9,
            resolved: cursor.resolved && bound,
            ..cursor
        }
    }

    // By how the formula at the cursor starts.
    pub(crate) fn begin_formula(&mut self, cursor: Cursor) -> Option<Cursor>
        requires { (cursor.mode ≡ Before) × CursorFits self.old.text.now cursor }
        ensures { Stepped self.old cursor self.new result }
    {
        let written = cursor.written;
        let next = match piece_at(self.text, cursor.at)? {
            Piece::Flag(end) => self.begin_flag(cursor, end),
            Piece::Forall(end) => self.begin_range(cursor, end),
            Piece::Negate(end) => {
                self.bytes[written] = NOT_CODE_BYTE;
                Cursor {
                    at: end,
                    written: written + 1,
                    ..cursor
                }
            }
            Piece::Open(end) => {
                self.frames[cursor.opened] = Frame::First(written as u16);
                self.bytes[written] = 0;
                Cursor {
                    at: end,
                    opened: cursor.opened + 1,
                    written: written + 1,
                    ..cursor
                }
            }
        };
        Some(next)
    }
}
