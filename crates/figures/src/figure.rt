// The figures of a formula from its parts'.
ghost use Rattle.std.specs.Prelude.{◌≡◌};
ghost use Rattle.figures.specs.Distances.{NearPair, farthest};
ghost use Rattle.figures.specs.Parts.{flag_figure, joined_figure, empty_figure, ranged_figure};

use crate::limits::range_width;
use cell_count::range_cells;
use figure_numbers::{larger_size, range_delay};
use rule::{Pair, Size};

// A formula's figures; its cells are counted up to 4,097.
#[derive(Clone, Copy)]
pub(crate) struct Figure {
    pub(crate) delay: Size,
    pub(crate) history: Size,
    pub(crate) cells: u16,
}

impl Figure {
    // A flag's.
    #[tactic(auto, unfolding(crate::specs::Parts::flag_figure))]
    pub(crate) fn of_flag() -> Figure
        ensures { result ≡ flag_figure }
    {
        Figure {
            delay: Size::Finite(0),
            history: Size::Finite(0),
            cells: 0,
        }
    }

    // A range's that is always empty, whatever its body.
    #[tactic(auto, unfolding(crate::specs::Parts::empty_figure))]
    pub(crate) fn of_empty_range() -> Figure
        ensures { result ≡ empty_figure }
    {
        Figure {
            delay: Size::Finite(0),
            history: Size::Finite(0),
            cells: 1,
        }
    }

    // Of two parts, with the cells that they need together.
    pub(crate) fn joined(self, second: Figure, cells: u16) -> Figure
        ensures { result ≡ joined_figure self second cells }
    {
        Figure {
            delay: larger_size(self.delay, second.delay),
            history: larger_size(self.history, second.history),
            cells,
        }
    }

    // Of any other range, whose variable has `pair` and which has a history of its own, from its body's. Here W is never 0 and l never infinity.
    pub(crate) fn under_range(self, pair: Pair, own_history: Size) -> Figure
        requires { NearPair farthest pair }
        ensures { result ≡ ranged_figure pair own_history self }
    {
        Figure {
            delay: larger_size(self.delay, range_delay(pair.upper)),
            history: larger_size(own_history, self.history),
            cells: range_cells(range_width(pair), self.cells),
        }
    }
}
