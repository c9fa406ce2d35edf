// The figures of a formula over the node table, and the sizes of its nodes.
ghost use Rattle.std.specs.Prelude.{◌≡◌, [], ◌∷◌, ◌+◌, set};
ghost use Rattle.rule.specs.Figures.{at_tick};
ghost use Rattle.rule.specs.declared.Size.TheVariants.{Finite};
ghost use Rattle.figures.specs.Distances.{Modest};
ghost use Rattle.figures.specs.Measured.{Measures, Promise};

use crate::figure::Figure;
use crate::limits::range_history;
use crate::scope::Scope;
use cell_count::{beside_cells, then_cells};
use figure_numbers::{always_empty, larger_size, range_delay};
use nodes::{
    Code, FIRST_WORDS, FORMULAS, NESTED, NODE_WORDS, SECOND_PART, SLOT_WORDS, code_at, node_word,
    skip_nots,
};
use rule::Size;

// Stores the word that comes `index` words after word `node`; nothing past the end.
fn store(nodes: &mut [u32], node: usize, index: usize, value: u16)
    ensures { nodes.new ≡ set nodes.old (node + index) value }
{
    if node < nodes.len() && index < nodes.len() - node {
        nodes[node + index] = u32::from(value);
    }
}

// The figures of the formula at word `node`, one of `left` that are left, started at k at the latest, with the sizes of its nodes stored.
// A not has its part's figures and no sizes: a run of nots is skipped. The body of a range that is always empty is not looked at and gets no sizes.
#[tactic(auto, using(nodes::proofs::Nots::nots_left, crate::proofs::Distances::modest_larger, crate::proofs::Distances::modest_delay))]
fn measure_at(nodes: &mut [u32], left: usize, node: usize, scope: &Scope, k: Size) -> Figure
    requires { Modest k }
    ensures { Measures left node scope.now k nodes.old nodes.new result }
{
    let operand = skip_nots(nodes, left, node);
    if operand.left == 0 {
        return Figure::of_flag();
    }
    let rest = operand.left - 1;
    match code_at(nodes, operand.node) {
        Code::Flag | Code::Not => Figure::of_flag(),
        Code::Then => {
            let second_node = node_word(nodes, operand.node, SECOND_PART) as usize;
            let first = measure_at(nodes, rest, operand.node + NODE_WORDS, scope, k);
            let start = larger_size(k, first.delay);
            let second = measure_at(nodes, rest, second_node, scope, start);
            first.joined(second, then_cells(first.cells, second.cells))
        }
        Code::Beside => {
            let second_node = node_word(nodes, operand.node, SECOND_PART) as usize;
            let first = measure_at(nodes, rest, operand.node + NODE_WORDS, scope, k);
            let second = measure_at(nodes, rest, second_node, scope, k);
            store(nodes, operand.node, FIRST_WORDS, 4 * first.cells);
            first.joined(second, beside_cells(first.cells, second.cells))
        }
        Code::ForAll if NESTED <= scope.depth => Figure::of_flag(),
        Code::ForAll => {
            let pair = scope.range_pair(nodes, operand.node);
            if always_empty(pair) {
                return Figure::of_empty_range();
            }
            let start = larger_size(k, range_delay(pair.upper));
            let inner = scope.with_pair(pair);
            let body = measure_at(nodes, rest, operand.node + NODE_WORDS, &inner, start);
            store(nodes, operand.node, SLOT_WORDS, 4 * (1 + body.cells));
            body.under_range(pair, range_history(k, pair.lower))
        }
    }
}

// The figures of the rule whose formula stands at the table's start.
pub(crate) fn measure_rule(nodes: &mut [u32]) -> Figure
    ensures { Promise 64 0 0 (at_tick ∷ []) (Finite 0) nodes.old nodes.new result }
{
    measure_at(nodes, FORMULAS, 0, &Scope::of_rule(), Size::Finite(0))
}
