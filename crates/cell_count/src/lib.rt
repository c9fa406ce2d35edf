// A rule's cells, counted in 16 bits. Above the limit it does not matter how many there are, so every count stops at 4,097. Sums saturate, and a product is
// tested before it is worked out: no number on the way passes 16 bits. Only `capped` takes a wider number, a range's W, and caps it before it is narrowed.
#![tactic(auto)]

ghost use Rattle.std.specs.Prelude.{◌≡◌, leb};
ghost use Rattle.rule.specs.declared.Size.TheVariants.{Finite};
ghost use Rattle.cell_count.specs.Counts.{cap, sum, product, then_cells, beside_cells, range_cells, rule_cells};

// 01: "Limits: .. cells 4,096."
const LIMIT: u16 = 4096;

// The count of every number above the limit.
pub const ABOVE_LIMIT: u16 = LIMIT + 1;

// The count of a number.
pub fn capped(number: u64) -> u16
    ensures { result ≡ cap (Finite number) }
{
    number.min(u64::from(ABOVE_LIMIT)) as u16
}

// Whether a count is within the limit.
pub fn within_limit(cells: u16) -> bool
    ensures { result ≡ leb cells 4096 }
{
    cells <= LIMIT
}

// The sum of two counts.
fn sum(first: u16, second: u16) -> u16
    ensures { result ≡ sum first second }
{
    first.saturating_add(second).min(ABOVE_LIMIT)
}

// Their product, tested before it is multiplied. Whether `first` is 0 is tested before all else: the product is 0 whatever `second` is.
// Kept: `saturating_mul` is shorter, but document 02, point 3, asks for 16 bits with the test before the multiplication (edit `test_after_the_product`).
#[tactic(auto, using(crate::proofs::Quotients::above))]
fn product(first: u16, second: u16) -> u16
    ensures { result ≡ product first second }
{
    if first == 0 || second <= LIMIT / first {
        first * second
    } else {
        ABOVE_LIMIT
    }
}

// The cells of "F then G" from its parts'.
pub fn then_cells(first: u16, second: u16) -> u16
    ensures { result ≡ then_cells first second }
{
    sum(1, first.max(second))
}

// The cells of "F beside G" from its parts'.
pub fn beside_cells(first: u16, second: u16) -> u16
    ensures { result ≡ beside_cells first second }
{
    sum(1, sum(first, second))
}

// The cells of a range of `width` positions over a body that needs `cells`.
pub fn range_cells(width: u16, cells: u16) -> u16
    ensures { result ≡ range_cells width cells }
{
    sum(1, product(width, sum(1, cells)))
}

// The cells of a rule from its delay and its formula's cells.
pub fn rule_cells(delay: u16, cells: u16) -> u16
    ensures { result ≡ rule_cells delay cells }
{
    product(sum(delay, 1), sum(1, cells))
}
