// The words of a flag calendar (document 02, point 5): zeroed at an opening, and marked tick by tick. `calendar` has the definitions.
#![tactic(auto)]

ghost use Rattle.std.specs.Prelude.{◌≡◌, ◌<◌};
ghost use Rattle.calendar.specs.Calendar.{kept, each, cleared, flagged, marked_word, marked, filled};

// How many ticks the words keep: 64 for each full group of eight.
#[tactic(auto, unfolding(calendar::specs::Calendar::kept))]
pub fn kept_ticks(words: &[u64]) -> u64
    ensures { result ≡ kept words.now }
{
    64 * (words.len() / 8) as u64
}

// Zeroes every full group of eight words; a last group under eight keeps its content.
pub fn clear(words: &mut [u64])
    ensures { words.new ≡ cleared words.old }
{
    let count = 8 * (words.len() / 8);
    words[..count].fill(0);
}

// A word of flag k, with this bit in it if the flag is up in the byte.
#[tactic(auto, using(crate::proofs::Flagged::or_flagged))]
fn with_flag(word: u64, bit: u64, flags: u8, k: u64) -> u64
    requires { (bit < 64) × (k < 8) }
    ensures { result ≡ flagged bit flags k word }
{
    word | (((flags as u64 >> k) & 1) << bit)
}

// Marks a kept tick: the eight words of its run.
fn mark_run(words: &mut [u64], tick: u64, flags: u8)
    requires { tick < kept words.old }
    ensures { words.new ≡ each (marked_word tick flags) 0 words.old }
{
    let run = 8 * (tick / 64) as usize;
    for k in 0..8 {
        words[run + k] = with_flag(words[run + k], tick % 64, flags, k as u64);
    }
}

// Marks a tick by its flag byte. A tick past the lent words is not kept.
#[tactic(auto, using(calendar::proofs::Stream::marked_kept, calendar::proofs::Stream::marked_past))]
pub fn mark(words: &mut [u64], tick: u64, flags: u8)
    ensures { words.new ≡ marked words.old tick flags }
{
    if tick < kept_ticks(words) {
        mark_run(words, tick, flags);
    }
}

// Marks the ticks from `tick` on, each by its byte. Those past the lent words are not kept.
pub fn fill(words: &mut [u64], tick: u64, bytes: &[u8])
    ensures { words.new ≡ filled words.old tick bytes.now }
{
    let end = kept_ticks(words);
    for (next, flags) in (tick..end).zip(bytes) {
        mark_run(words, next, *flags);
    }
}
