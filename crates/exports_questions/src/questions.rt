// The four questions. A tick is answered by its number, none by 2^64 - 1 (SW_NO_TICK).
ghost use Rattle.std.specs.Prelude.{◌≡◌};
ghost use Rattle.refusal.specs.Answer.{answer_of, number, or_kept};
ghost use Rattle.calendar.specs.Calendar.{ups, first_up, last_up, nearest_up};
ghost use Rattle.calendar_questions.specs.Answers.{of_flag};
ghost use Rattle.exports_questions.specs.Ticks.{tick_number};

use refusal::{Refusal, put_answer};

// What C hears for none.
const NO_TICK: u64 = 18446744073709551615;

fn tick_number(tick: Option<u64>) -> u64
    ensures { result ≡ tick_number tick }
{
    tick.unwrap_or(NO_TICK)
}

// Answers a question about ticks: the refusal's number, or 0 with the tick's number in the lent one.
fn put_tick(answer: Result<Option<u64>, Refusal>, tick: &mut u64) -> u32
    ensures value { result ≡ number (answer_of answer) }
    ensures tick_after { tick.new ≡ or_kept tick_number (answer_of answer) tick.old }
{
    put_answer(answer.map(tick_number), tick)
}

// The number of ups of a flag from tick `first` to tick `last`. A flag above 7 gets 7.
pub fn sw_calendar_ups(words: &[u64], flag: u8, first: u64, last: u64, count: &mut u64) -> u32
    ensures value { result ≡ number (of_flag flag (ups words.now flag first last)) }
    ensures count_after { count.new ≡ or_kept (λ found. found) (of_flag flag (ups words.now flag first last)) count.old }
{
    put_answer(calendar_questions::ups(words, flag, first, last), count)
}

// The first tick from `first` to `last` at which a flag is up.
pub fn sw_calendar_first(words: &[u64], flag: u8, first: u64, last: u64, tick: &mut u64) -> u32
    ensures value { result ≡ number (of_flag flag (first_up words.now flag first last)) }
    ensures tick_after { tick.new ≡ or_kept tick_number (of_flag flag (first_up words.now flag first last)) tick.old }
{
    put_tick(calendar_questions::first_up(words, flag, first, last), tick)
}

// The last tick from `first` to `last` at which a flag is up.
pub fn sw_calendar_last(words: &[u64], flag: u8, first: u64, last: u64, tick: &mut u64) -> u32
    ensures value { result ≡ number (of_flag flag (last_up words.now flag first last)) }
    ensures tick_after { tick.new ≡ or_kept tick_number (of_flag flag (last_up words.now flag first last)) tick.old }
{
    put_tick(calendar_questions::last_up(words, flag, first, last), tick)
}

// The kept tick nearest to `tick` at which a flag is up; the earlier of two equally near.
pub fn sw_calendar_nearest(words: &[u64], flag: u8, tick: u64, nearest: &mut u64) -> u32
    ensures value { result ≡ number (of_flag flag (nearest_up words.now flag tick)) }
    ensures nearest_after { nearest.new ≡ or_kept tick_number (of_flag flag (nearest_up words.now flag tick)) nearest.old }
{
    put_tick(calendar_questions::nearest_up(words, flag, tick), nearest)
}
