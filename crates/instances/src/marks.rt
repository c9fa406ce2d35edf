// An outcome loaded from a cell, and stored; the tick that its step counts from.
ghost use Rattle.std.specs.Prelude.{◌≡◌, ◌+◌, ◌≤◌, ◌<◌, length, get_or};
ghost use Rattle.cells.specs.Cells.{held, mark};

use cell_runs::Variables;
use cells::{elapsed, outcome_of};
use rule::{Outcome, Verdict};

// The outcome that the words `index` and `index` + 2 of a cell hold.
pub(crate) fn load_outcome(cell: &[u32], index: usize, p: u64) -> Outcome
    requires { (4 ≤ length cell.now) × (index < 2) }
    ensures { result ≡ held p (get_or cell.now index 0) (get_or cell.now (index + 2) 0) }
{
    outcome_of(cell[index], cell[index + 2], p)
}

// Writes an outcome into the words `index` and `index` + 2 of a cell.
pub(crate) fn store_outcome(cell: &mut [u32], index: usize, p: u64, outcome: Outcome)
    requires { (4 ≤ length cell.old) × (index < 2) }
    ensures { cell.new ≡ mark p index outcome cell.old }
{
    match outcome {
        Outcome::Open => {
            cell[index] = 0;
        }
        Outcome::Decided(verdict, step) => {
            cell[index + 2] = elapsed(p, step);
            cell[index] = match verdict {
                Verdict::True => 1,
                Verdict::False => 2,
            };
        }
    }
}

// The rule's own tick.
pub(crate) fn own_tick(variables: &Variables) -> u64
    ensures { result ≡ get_or variables.now.pos 0 0 }
{
    variables.pos[0]
}
