// The head cell of a range: how many leading positions are true (word 0), and the latest of their steps (word 2).
ghost use Rattle.std.specs.Prelude.{◌≡◌};
ghost use Rattle.cells.specs.Heads.{leading_of, latest_of};

use crate::outcome::step_after;

// What a head cell says.
#[derive(Clone, Copy, Debug, PartialEq, Eq)]
pub struct Head {
    pub leading: u64,
    pub latest: u64,
}

// What a head's words say at tick t of a range with so many positions: no leading ones where the range starts now.
#[tactic(auto, unfolding(crate::specs::Heads::leading_of, crate::specs::Heads::latest_of))]
pub fn head_of(trues: u32, steps: u32, p: u64, s: u64, t: u64, positions: u64) -> Head
    ensures { (result.leading ≡ leading_of s t positions trues) × (result.latest ≡ latest_of p s result.leading steps) }
{
    let leading = u64::from(trues);
    if t == s || leading == 0 || positions < leading {
        return Head {
            leading: 0,
            latest: s,
        };
    }
    Head {
        leading,
        latest: step_after(p, steps),
    }
}
