// Writing text piece after piece. Each method goes on where the last one ended, and stops at the end of the bytes: no caller has to show that there is
// room.
ghost use Rattle.std.specs.Prelude.{[], ◌∷◌};
ghost use Rattle.body_to_text.specs.Storing.{Adds};

// The bytes of a text, and how many of them are written.
#[derive(Drop)]
pub(crate) struct Writer {
    pub bytes: [u8; 4096],
    pub at: usize,
}

impl Writer {
    // Writes a byte.
    pub(crate) fn put(&mut self, byte: u8)
        ensures { Adds (byte ∷ []) self.old self.new }
    {
        if self.at < self.bytes.len() {
            self.bytes[self.at] = byte;
            self.at += 1;
        }
    }

    // Writes a word, where there is room for it. It is copied whole: byte by byte, each byte waits for the position that the last one left.
    #[tactic(auto, using(crate::proofs::Storing::wrote_copied, crate::proofs::Storing::wrote_no_room))]
    pub(crate) fn put_word(&mut self, word: &[u8])
        ensures { Adds word.now self.old self.new }
    {
        if self.at <= self.bytes.len() && word.len() <= self.bytes.len() - self.at {
            let end = self.at + word.len();
            self.bytes[self.at..end].copy_from_slice(word);
            self.at = end;
        }
    }
}
