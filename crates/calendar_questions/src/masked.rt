// The words of one flag, one piece of a run at a time: the ticks of a piece as the low bits of a number.
ghost use Rattle.std.specs.Prelude.{◌≡◌, ◌+◌, ◌-◌, ◌*◌, ◌/◌, ◌%◌, ◌^◌, ◌<◌, ◌≤◌, min};
ghost use Rattle.calendar.specs.Calendar.{run_word};
ghost use Rattle.calendar_questions.specs.Parts.{up_of, kept_of, Shown};

use crate::flag_words::FlagWords;

// The `count` bits of a word from `bit` on, as the low bits of a number.
#[tactic(auto, using(crate::proofs::Digits::mask_word))]
fn masked(word: u64, bit: u64, count: u64) -> u64
    requires { (0 < count) × (bit + count ≤ 64) }
    ensures { result ≡ word / 2 ^ bit % 2 ^ count }
{
    (word >> bit) & (u64::MAX >> (64 - count))
}

impl FlagWords<'_> {
    // The word of the flag for a run of kept ticks.
    #[tactic(auto, unfolding(calendar::specs::Calendar::kept, calendar::specs::Calendar::run_word))]
    pub(crate) fn run_word(&self, run: u64) -> u64
        requires { 64 * run < kept_of self.now }
        ensures { result ≡ run_word self.now.words.now self.now.flag (64 * run) }
    {
        self.words[8 * run as usize + self.flag]
    }

    // The `count` ticks from q on, which lie in one run, as the low bits of a number.
    #[tactic(auto, using(crate::proofs::Runs::masked_shown))]
    pub(crate) fn shown(&self, q: u64, count: u64) -> u64
        requires { (q < kept_of self.now) × (0 < count) × (q % 64 + count ≤ 64) }
        ensures { Shown (up_of self.now) q count result }
    {
        masked(self.run_word(q / 64), q % 64, count)
    }
}

// How many ticks from q on lie before `end` and in one run.
pub(crate) fn piece(q: u64, end: u64) -> u64
    requires { q < end }
    ensures { result ≡ min (end - q) (64 - q % 64) }
{
    (end - q).min(64 - q % 64)
}

// How many ticks before `end` lie from `first` on and in one run.
pub(crate) fn piece_before(first: u64, end: u64) -> u64
    requires { first < end }
    ensures { result ≡ min (end - first) ((end - 1) % 64 + 1) }
{
    (end - first).min((end - 1) % 64 + 1)
}
