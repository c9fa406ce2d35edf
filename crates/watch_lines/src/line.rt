// A line that is put together in a buffer of its own.
ghost use Rattle.std.specs.Prelude.{◌≡◌, ◌++◌, ◌+◌, ◌-◌, ◌≤◌, [], List, ℕ, length, take, drop, replicate};
ghost use Rattle.watch_lines.specs.Lines.{decimal, with_field};

use itoa::Buffer;
use std::marker::Model;

// The line is the first `end` bytes. Those after it are 0, as in a fresh buffer.
#[derive(Drop)]
pub struct Line {
    pub(crate) bytes: [u8; 128],
    pub(crate) end: usize,
}

// A contract sees the bytes of the line.
impl Model for Line {
    ghost Value = { List ℕ };

    ghost view = { λ line. take line.end line.bytes };

    ghost invariant = { λ line. (line.end ≤ 128) × (drop line.end line.bytes ≡ replicate (128 - line.end) 0) };
}

impl Line {
    // A line with no byte.
    pub(crate) fn new() -> Self
        ensures { result ≡ [] }
    {
        Line {
            bytes: [0; 128],
            end: 0,
        }
    }

    // The line's bytes.
    pub fn bytes(&self) -> &[u8]
        ensures { result.now ≡ self.now }
    {
        &self.bytes[..self.end]
    }

    // Puts bytes at the line's end.
    pub(crate) fn put_text(&mut self, text: &[u8])
        requires { length self.old + length text.now ≤ 128 }
        ensures { self.new ≡ self.old ++ text.now }
    {
        let end = self.end + text.len();
        self.bytes[self.end..end].copy_from_slice(text);
        self.end = end;
    }

    // Puts a number's digits at the line's end.
    #[tactic(auto, using(crate::proofs::Numerals::decimal_is))]
    fn put_number(&mut self, number: u64)
        requires { length self.old + 20 ≤ 128 }
        ensures value { self.new ≡ self.old ++ decimal number }
        ensures bound { length self.new ≤ length self.old + 20 }
    {
        let mut buffer = Buffer::new();
        self.put_text(buffer.format(number).as_bytes());
    }

    // Puts a word and a number at the line's end.
    #[tactic(auto, unfolding(crate::specs::Lines::with_field))]
    pub(crate) fn put_field(&mut self, word: &[u8], number: u64)
        requires { (length self.old + length word.now) + 20 ≤ 128 }
        ensures value { self.new ≡ with_field self.old word.now number }
        ensures bound { length self.new ≤ (length self.old + length word.now) + 20 }
    {
        self.put_text(word);
        self.put_number(number);
    }
}
