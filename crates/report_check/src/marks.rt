// Which ticks of a recording were met, a bit to a tick.
ghost use Rattle.std.specs.Prelude.{◌≡◌};
ghost use Rattle.report_check.specs.Marks.{marked, is_marked};

// A bit for each tick of the longest recording.
pub(crate) const MARK_WORDS: usize = 1024;

// Marks a tick; one past the words is not kept.
pub(crate) fn mark(marks: &mut [u64], tick: u64)
    ensures { marks.new ≡ marked marks.old tick }
{
    let word = (tick / 64) as usize;
    if word < marks.len() {
        marks[word] |= 1 << (tick % 64);
    }
}

pub(crate) fn is_marked(marks: &[u64], tick: u64) -> bool
    ensures { result ≡ is_marked marks.now tick }
{
    let word = marks.get((tick / 64) as usize).copied().unwrap_or(0);
    (word >> (tick % 64)) & 1 == 1
}
