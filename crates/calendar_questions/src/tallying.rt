// How many ticks are up: the bits set in each word of a range.
ghost use Rattle.std.specs.Prelude.{◌≡◌, ◌-◌, ◌*◌, ◌<◌, ◌≤◌};
ghost use Rattle.calendar.specs.Search.{tally};
ghost use Rattle.calendar_questions.specs.Parts.{up_of, kept_of};

use crate::flag_words::FlagWords;
use crate::masked::piece;

impl FlagWords<'_> {
    // How many of the ticks of the runs from `first` to before `end` are up.
    fn tally_runs(&self, first: u64, end: u64) -> u64
        requires { 64 * end ≤ kept_of self.now }
        ensures { result ≡ tally (up_of self.now) (64 * first) (64 * end - 64 * first) }
    {
        let mut sum = 0;
        for run in first..end {
            sum += u64::from(self.run_word(run).count_ones());
        }
        sum
    }

    // How many of the ticks from `first` to before `end` are up: those of the first piece, of the whole runs after it, and of the rest.
    pub(crate) fn tally(&self, first: u64, end: u64) -> u64
        requires { end ≤ kept_of self.now }
        ensures { result ≡ tally (up_of self.now) first (end - first) }
    {
        let mut sum = 0;
        let mut q = first;
        // Kept: as in `earliest`. Over an hour three calls took 6.1 instructions a word here, and this loop 4.2.
        while q < end {
            let count = piece(q, end);
            sum += u64::from(self.shown(q, count).count_ones());
            q += count;
            let bit = q % 64;
            // a piece that ends inside a run ends the range
            if bit != 0 {
                return sum;
            }
            sum += self.tally_runs(q / 64, end / 64);
            q = end - end % 64;
        }
        sum
    }
}
