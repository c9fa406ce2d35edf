// Numbers with a sign and infinite ones: a limit moved by an offset, 01's N(k - l) and W.
ghost use Rattle.std.specs.Prelude.{◌≡◌, ◌≤◌, nat_abs};
ghost use Rattle.rule.specs.Figures.{shift, N_back, width};
ghost use Rattle.cell_count.specs.Counts.{cap};
ghost use Rattle.figures.specs.Distances.{Near, NearPair, farthest, Modest};

use cell_count::{ABOVE_LIMIT, capped};
use rule::{Limit, Pair, Size};
use signed::at_least_zero;

// A limit moved by an offset; an infinite one stays.
#[tactic(auto, unfolding(rule::specs::Figures::shift))]
pub(crate) fn shifted(limit: Limit, offset: i64) -> Limit
    requires near { Near farthest limit }
    requires short { nat_abs offset ≤ farthest }
    ensures { result ≡ shift offset limit }
{
    match limit {
        Limit::At(distance) => Limit::At(distance + offset),
        Limit::Lowest | Limit::Highest => limit,
    }
}

// N(k - l), a range's own history.
#[tactic(auto, unfolding(rule::specs::Figures::N_back))]
pub(crate) fn range_history(k: Size, l: Limit) -> Size
    requires begun { Modest k }
    requires near { Near farthest l }
    ensures { result ≡ N_back k l }
{
    match (l, k) {
        (Limit::Lowest, _) => Size::Unbounded,
        (Limit::At(distance), Size::Finite(start)) => {
            Size::Finite(at_least_zero(start as i64 - distance))
        }
        (Limit::At(_), Size::Unbounded) => Size::Unbounded,
        (Limit::Highest, _) => Size::Finite(0),
    }
}

// W, a range's positions, counted up to 4,097.
#[tactic(auto, unfolding(rule::specs::Figures::width, rule::specs::Figures::positions_from))]
pub(crate) fn range_width(pair: Pair) -> u16
    requires { NearPair farthest pair }
    ensures { result ≡ cap (width pair) }
{
    match (pair.lower, pair.upper) {
        (Limit::Lowest, _) => ABOVE_LIMIT,
        (Limit::At(_), Limit::Lowest) => 0,
        (Limit::At(lower), Limit::At(upper)) => capped(at_least_zero(upper - lower + 1)),
        (Limit::At(_), Limit::Highest) => ABOVE_LIMIT,
        (Limit::Highest, _) => 0,
    }
}
