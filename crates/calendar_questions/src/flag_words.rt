// The words of a calendar, of which one flag's are read.
ghost use Rattle.std.specs.Prelude.{◌≡◌, ◌<◌, ◌≤◌, IfOk, IfErr};

use refusal::Refusal;

#[derive(Clone, Copy)]
pub(crate) struct FlagWords<'a> {
    pub(crate) words: &'a [u64],
    pub(crate) flag: usize,
    ghost there_is: { flag < 8 },
}

impl<'a> FlagWords<'a> {
    // The words of a flag; one above 7 is refused.
    pub(crate) fn of(words: &'a [u64], flag: u8) -> Result<Self, Refusal>
        ensures found { IfOk result (λ found. (flag ≤ 7) × (found.words.now ≡ words.now) × (found.flag ≡ flag)) }
        ensures refused { IfErr result (λ refusal. (7 < flag) × (refusal ≡ Refusal.NoSuchFlag)) }
    {
        if 7 < flag {
            return Err(Refusal::NoSuchFlag);
        }
        Ok(FlagWords {
            words,
            flag: usize::from(flag),
        })
    }
}
