// The lines of a file.
ghost use Rattle.std.specs.Prelude.{◌≡◌, ◌+◌, length, take, drop, MatchOption};
ghost use Rattle.std.specs.Iterator.{at_most};
ghost use Rattle.case_file.specs.Places.{index_of};

use crate::fields::split_at_byte;

// The lines that are left of a file, without their ends. A file's last line may lack its end.
#[derive(Drop)]
pub struct Lines<'a> {
    rest: &'a [u8],
}

// The lines of a file.
pub fn lines_of<'a>(file: &'a [u8]) -> Lines<'a>
    ensures { result.rest.now ≡ file.now }
{
    Lines { rest: file }
}

impl<'a> Iterator for Lines<'a> {
    type Item = &'a [u8];

    // The next line is what stands before the first line end, and what stands behind that is left; or there is no byte left.
    ghost next_gives = { λ s r t. MatchOption r (length s.rest.now ≡ 0) (λ line. (line.now ≡ take (index_of 10 s.rest.now) s.rest.now) × (t.rest.now ≡ drop (index_of 10 s.rest.now + 1) s.rest.now)) };

    ghost remaining = { λ s. at_most (length s.rest.now) };

    fn next(&mut self) -> Option<&'a [u8]> {
        if self.rest.is_empty() {
            return None;
        }
        let end = self.rest.len();
        let (line, rest) = split_at_byte(self.rest, b'\n').unwrap_or((
            self.rest,
            &self.rest[end..],
        ));
        self.rest = rest;
        Some(line)
    }
}
