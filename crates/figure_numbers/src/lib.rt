// Numbers of figures, some of them infinite: the larger of two sizes, 01's N(u), and whether the pair of a range's variable leaves it always empty (02, point
// 6).
#![tactic(auto)]

ghost use Rattle.std.specs.Prelude.{◌≡◌};
ghost use Rattle.rule.specs.Figures.{larger, N, always_empty};

use rule::{Limit, Pair, Size};
use signed::at_least_zero;

// The larger of two sizes: infinite where one is.
#[tactic(auto, unfolding(rule::specs::Figures::larger))]
pub fn larger_size(first: Size, second: Size) -> Size
    ensures { result ≡ larger first second }
{
    match (first, second) {
        (Size::Finite(one), Size::Finite(other)) => Size::Finite(one.max(other)),
        _ => Size::Unbounded,
    }
}

// N(u), a range's own delay.
#[tactic(auto, unfolding(rule::specs::Figures::N))]
pub fn range_delay(u: Limit) -> Size
    ensures { result ≡ N u }
{
    match u {
        Limit::Lowest => Size::Finite(0),
        Limit::At(distance) => Size::Finite(at_least_zero(distance)),
        Limit::Highest => Size::Unbounded,
    }
}

// Whether l is infinity, or greater than u: a range whose variable has this pair has no position at any tick.
#[tactic(auto, unfolding(rule::specs::Figures::always_empty, rule::specs::Figures::none_between))]
pub fn always_empty(pair: Pair) -> bool
    ensures { result ≡ always_empty pair }
{
    match (pair.lower, pair.upper) {
        (Limit::Lowest, _) => false,
        (Limit::Highest, _) => true,
        (Limit::At(_), Limit::Lowest) => true,
        (Limit::At(lower), Limit::At(upper)) => upper < lower,
        (Limit::At(_), Limit::Highest) => false,
    }
}
