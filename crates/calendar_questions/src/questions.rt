// The four questions.
ghost use Rattle.std.specs.Prelude.{◌≡◌, suc, min};
ghost use Rattle.refusal.specs.Answer.{answer_of};
ghost use Rattle.calendar.specs.Calendar.{kept, ups, first_up, last_up, nearest_up};
ghost use Rattle.calendar_questions.specs.Answers.{of_flag};

use crate::flag_words::FlagWords;
use calendar_marks::kept_ticks;
use refusal::Refusal;

// The tick after a range's last, cut at the kept ones.
fn end_after(words: &[u64], last: u64) -> u64
    ensures { result ≡ min (suc last) (kept words.now) }
{
    last.saturating_add(1).min(kept_ticks(words))
}

// The number of ups of a flag from tick `first` to tick `last`.
#[tactic(auto, unfolding(crate::specs::Answers::of_flag, calendar::specs::Calendar::ups, calendar::specs::Calendar::span))]
pub fn ups(words: &[u64], flag: u8, first: u64, last: u64) -> Result<u64, Refusal>
    ensures { answer_of result ≡ of_flag flag (ups words.now flag first last) }
{
    let flag_words = FlagWords::of(words, flag)?;
    Ok(flag_words.tally(first, end_after(words, last)))
}

// The first tick from `first` to `last` at which a flag is up.
#[tactic(auto, unfolding(crate::specs::Answers::of_flag, calendar::specs::Calendar::first_up, calendar::specs::Calendar::span))]
pub fn first_up(words: &[u64], flag: u8, first: u64, last: u64) -> Result<Option<u64>, Refusal>
    ensures { answer_of result ≡ of_flag flag (first_up words.now flag first last) }
{
    let flag_words = FlagWords::of(words, flag)?;
    Ok(flag_words.earliest(first, end_after(words, last)))
}

// The last tick from `first` to `last` at which a flag is up.
#[tactic(auto, unfolding(crate::specs::Answers::of_flag, calendar::specs::Calendar::last_up, calendar::specs::Calendar::span))]
pub fn last_up(words: &[u64], flag: u8, first: u64, last: u64) -> Result<Option<u64>, Refusal>
    ensures { answer_of result ≡ of_flag flag (last_up words.now flag first last) }
{
    let flag_words = FlagWords::of(words, flag)?;
    Ok(flag_words.latest(first, end_after(words, last)))
}

// The kept tick nearest to t at which a flag is up; the earlier of two equally near.
#[tactic(auto, unfolding(crate::specs::Answers::of_flag))]
pub fn nearest_up(words: &[u64], flag: u8, t: u64) -> Result<Option<u64>, Refusal>
    ensures { answer_of result ≡ of_flag flag (nearest_up words.now flag t) }
{
    Ok(FlagWords::of(words, flag)?.nearest(t))
}
