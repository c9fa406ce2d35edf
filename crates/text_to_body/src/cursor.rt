// A cursor in a text, and what a translation works in.
ghost use Rattle.std.specs.Prelude.{◌≤◌, length};

// What comes next: a formula, what follows one, or nothing, where the text has ended with nothing open.
#[derive(Clone, Copy)]
pub(crate) enum Mode {
    Before,
    After,
    Whole,
}

// The position in the text, how many frames are open, how many names are in scope, how many bytes of the body are written, and whether all names so
// far are bound.
#[derive(Clone, Copy)]
pub(crate) struct Cursor {
    pub mode: Mode,
    pub at: usize,
    pub opened: usize,
    pub scope: usize,
    pub written: usize,
    pub resolved: bool,
}

// What is open: a bracket whose second part is being read, a quantifier whose formula is being read, or a bracket whose first part is being read and
// whose code is to stand at a byte of the body.
#[derive(Clone, Copy)]
pub(crate) enum Frame {
    Second,
    Range,
    First(u16),
}

// A text, and the memory to translate it in: the frames that are open, the positions of the names in scope, the innermost last, and the body's bytes.
#[derive(Drop)]
pub(crate) struct Work<'a> {
    pub text: &'a [u8],
    pub frames: [Frame; 4096],
    pub names: [usize; 256],
    pub bytes: [u8; 4096],
    ghost short: { length text.now ≤ 4096 },
}
