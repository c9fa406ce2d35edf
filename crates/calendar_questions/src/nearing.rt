// The up tick nearest to a tick, in one pass: the last up to it, and then only ticks after it that are nearer.
ghost use Rattle.std.specs.Prelude.{◌≡◌, suc, ◌+◌, ◌-◌, ◌<◌, ◌≤◌, min, Some};
ghost use Rattle.calendar.specs.Search.{earliest, nearer};
ghost use Rattle.calendar.specs.Calendar.{nearest_up};
ghost use Rattle.calendar_questions.specs.Parts.{up_of, kept_of};

use crate::flag_words::FlagWords;
use calendar_marks::kept_ticks;

// The first tick after t that is not nearer to it than p, cut at the end.
fn nearer_end(t: u64, p: u64, end: u64) -> u64
    requires { (p ≤ t) × (t < end) }
    ensures { result ≡ min end (t + (t - p)) }
{
    t + (t - p).min(end - t)
}

impl FlagWords<'_> {
    // The nearer to t of p, an up tick not after it, and the first up after it; p if they are equally near.
    fn nearer_after(&self, t: u64, p: u64) -> Option<u64>
        requires { (p ≤ t) × (t < kept_of self.now) }
        ensures { result ≡ nearer t (Some p) (earliest (up_of self.now) (suc t) (kept_of self.now - suc t)) }
    {
        let end = nearer_end(t, p, kept_ticks(self.words));
        self.earliest(t + 1, end).or(Some(p))
    }

    // The up tick nearest to t, of all kept ones.
    pub(crate) fn nearest(&self, t: u64) -> Option<u64>
        ensures { result ≡ nearest_up self.now.words.now self.now.flag t }
    {
        let end = kept_ticks(self.words);
        if end <= t {
            return self.latest(0, end);
        }
        match self.latest(0, t + 1) {
            Some(p) => self.nearer_after(t, p),
            None => self.earliest(t + 1, end),
        }
    }
}
