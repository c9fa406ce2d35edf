// The first and the last tick that is up, sought word by word.
ghost use Rattle.std.specs.Prelude.{◌≡◌, ◌-◌, ◌*◌, ◌<◌, ◌≤◌};
ghost use Rattle.calendar.specs.Search.{earliest, latest};
ghost use Rattle.calendar_questions.specs.Parts.{up_of, kept_of, Quiet};

use crate::flag_words::FlagWords;
use crate::masked::{piece, piece_before};

impl FlagWords<'_> {
    // The first run from `first` to before `end` whose word has a bit set; `end` if there is none.
    fn skip_runs(&self, first: u64, end: u64) -> u64
        requires { (first ≤ end) × (64 * end ≤ kept_of self.now) }
        ensures { (first ≤ result) × (result ≤ end) × Quiet (up_of self.now) (64 * first) (64 * result) }
    {
        for run in first..end {
            if self.run_word(run) != 0 {
                return run;
            }
        }
        end
    }

    // The run after the last from `first` to before `end` whose word has a bit set; `first` if there is none.
    fn skip_runs_back(&self, first: u64, end: u64) -> u64
        requires { (first ≤ end) × (64 * end ≤ kept_of self.now) }
        ensures { (first ≤ result) × (result ≤ end) × Quiet (up_of self.now) (64 * result) (64 * end) }
    {
        for run in (first..end).rev() {
            if self.run_word(run) != 0 {
                return run + 1;
            }
        }
        first
    }

    // The first of the ticks from `first` to before `end` that is up.
    pub(crate) fn earliest(&self, first: u64, end: u64) -> Option<u64>
        requires { end ≤ kept_of self.now }
        ensures { result ≡ earliest (up_of self.now) first (end - first) }
    {
        let mut q = first;
        // Kept: q goes on by a part of a run or past many runs, and not by one. Three calls (the first run's part, the whole runs, the last run's part) were proved too: a
        // `nearest_up` of one word, which seeks so twice, took 94 instructions by them, and 49 by this loop. The bar is docs/PERFORMANCE.md, "Calendars": 0.84 of plain Rust's time
        // at that question, which twice the instructions miss.
        while q < end {
            let count = piece(q, end);
            let word = self.shown(q, count);
            if word != 0 {
                return Some(q + u64::from(word.trailing_zeros()));
            }
            q += count;
            let bit = q % 64;
            // a piece that ends inside a run ends the range
            if bit != 0 {
                return None;
            }
            q = 64 * self.skip_runs(q / 64, end / 64);
        }
        None
    }

    // The last of the ticks from `first` to before `end` that is up.
    pub(crate) fn latest(&self, first: u64, end: u64) -> Option<u64>
        requires { end ≤ kept_of self.now }
        ensures { result ≡ latest (up_of self.now) first (end - first) }
    {
        let mut after = end;
        // Kept: as in `earliest`. Over an hour the three calls took 10.1 instructions a word here, and this loop 6.2.
        while first < after {
            let count = piece_before(first, after);
            let q = after - count;
            let word = self.shown(q, count);
            if word != 0 {
                return Some(q + u64::from(63 - word.leading_zeros()));
            }
            let bit = q % 64;
            // a piece that begins inside a run begins the range
            if bit != 0 {
                return None;
            }
            after = 64 * self.skip_runs_back((first + 63) / 64, q / 64);
        }
        None
    }
}
