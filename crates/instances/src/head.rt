// The head of a range, loaded from its cell and moved on over its slots: how many leading positions are true, and the latest of their steps.
ghost use Rattle.std.specs.Prelude.{◌≡◌, ◌+◌, ◌≤◌, length, get_or};
ghost use Rattle.cells.specs.Heads.{leading_of, latest_of};
ghost use Rattle.cell_runs.specs.Leading.{MovedOn, HeadMoved, HeadFit};

use cells::{CELL_WORDS, Head, WORD_VALUES, elapsed, head_of, step_after};

// What the head cell says at tick t, of so many positions; none where the range starts now.
pub(crate) fn load_head(run: &[u32], p: u64, s: u64, t: u64, positions: u64) -> Head
    requires { 4 ≤ length run.now }
    ensures { (result.leading ≡ leading_of s t positions (get_or run.now 0 0)) × (result.latest ≡ latest_of p s result.leading (get_or run.now 2 0)) }
{
    head_of(run[0], run[2], p, s, t, positions)
}

// Moves the head on over the slots, while they hold true.
fn leading_true(slots: &[u32], head: Head, positions: u64, size: usize, p: u64) -> Head
    requires { HeadFit size positions head.leading (4 + length slots.now) }
    ensures { MovedOn p size positions slots.now head.leading head.latest result.leading result.latest }
{
    let mut last = head.latest;
    for trues in head.leading..positions {
        let at = (trues as usize) * size;
        if slots[at] != 1 {
            return Head {
                leading: trues,
                latest: last,
            };
        }
        last = last.max(step_after(p, slots[at + 2]));
    }
    Head {
        leading: positions,
        latest: last,
    }
}

// Moves the head on and writes its cell.
pub(crate) fn move_head(run: &mut [u32], head: Head, positions: u64, size: usize, p: u64)
    requires { HeadFit size positions head.leading (length run.old) }
    ensures { HeadMoved p size positions run.old head.leading head.latest run.new }
{
    let moved = leading_true(&run[CELL_WORDS..], head, positions, size, p);
    run[2] = elapsed(p, moved.latest);
    run[0] = (moved.leading % WORD_VALUES) as u32;
}
