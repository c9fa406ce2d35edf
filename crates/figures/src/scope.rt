// The pairs of the variables that are bound at a formula, and the pair that a quantifier gives its own.
ghost use Rattle.std.specs.Prelude.{◌≡◌, [], ◌∷◌, ◌++◌, ◌+◌, ◌*◌, ◌≤◌, ◌<◌, length, get_or, take};
ghost use Rattle.rule.specs.Figures.{bound_pair, range_pair, anywhere, at_tick};
ghost use Rattle.nodes.specs.Table.{bound_at};
ghost use Rattle.figures.specs.Distances.{NearPair, AllNear};

use crate::limits::shifted;
use nodes::{BOUND_VARIABLE, FIRST_BOUND, Kind, NESTED, OFFSET, SECOND_BOUND, kind_at, node_word};
use rule::{Limit, Pair};
use signed::offset_of;

// Variable 0, the rule's tick, and one for each quantifier.
const VARIABLES: usize = NESTED + 1;

const ANYWHERE: Pair = Pair {
    lower: Limit::Lowest,
    upper: Limit::Highest,
};

// How many quantifiers a formula stands in, and the pairs of the rule's tick and of their variables: each quantifier's lies at most 32,768 farther off.
#[derive(Clone, Copy)]
pub(crate) struct Scope {
    pub(crate) depth: usize,
    pub(crate) pairs: [Pair; VARIABLES],
    ghost nested: { depth ≤ 4 },
    ghost near: { AllNear (32768 * depth) (take (depth + 1) pairs) },
}

impl Scope {
    ghost use Rattle.figures.specs.Scopes.{inside};

    // The scope of a rule's formula.
    #[tactic(auto, unfolding(rule::specs::Figures::at_tick))]
    pub(crate) fn of_rule() -> Scope
        ensures depth { result.depth ≡ 0 }
        ensures tick { inside result ≡ at_tick ∷ [] }
    {
        let own_tick = Pair {
            lower: Limit::At(0),
            upper: Limit::At(0),
        };
        Scope {
            depth: 0,
            pairs: [own_tick; VARIABLES],
        }
    }

    // The scope of the body of a quantifier that stands here, whose variable has `pair`.
    pub(crate) fn with_pair(&self, pair: Pair) -> Scope
        requires nested { self.now.depth < 4 }
        requires near { NearPair (32768 * (self.now.depth + 1)) pair }
        ensures depth { result.depth ≡ self.now.depth + 1 }
        ensures pairs { inside result ≡ inside self.now ++ (pair ∷ []) }
    {
        let depth = self.depth + 1;
        let mut pairs = self.pairs;
        pairs[depth] = pair;
        Scope { depth, pairs }
    }

    // The pair of a variable: one that is not bound here could be anywhere.
    #[tactic(auto, unfolding(rule::specs::Figures::anywhere))]
    fn pair_of(&self, variable: usize) -> Pair
        ensures { result ≡ get_or (inside self.now) variable anywhere }
    {
        let bound = &self.pairs[..self.depth + 1];
        bound.get(variable).copied().unwrap_or(ANYWHERE)
    }

    // The pair of the bound whose three words start at word `at`.
    #[tactic(auto, using(crate::proofs::Distances::offset_near, crate::proofs::Distances::offset_bits), unfolding(rule::specs::Figures::bound_pair, nodes::specs::Table::bound_at, nodes::specs::Table::bound_of))]
    fn pair_at(&self, nodes: &[u32], at: usize) -> Pair
        ensures { result ≡ bound_pair (bound_at nodes.now at) (inside self.now) }
    {
        let offset = offset_of(node_word(nodes, at, OFFSET));
        match kind_at(nodes, at) {
            Kind::Origin => Pair {
                lower: Limit::Lowest,
                upper: Limit::At(offset),
            },
            Kind::Infinity => Pair {
                lower: Limit::Highest,
                upper: Limit::Highest,
            },
            Kind::Variable => {
                let pair = self.pair_of(node_word(nodes, at, BOUND_VARIABLE) as usize);
                Pair {
                    lower: shifted(pair.lower, offset),
                    upper: shifted(pair.upper, offset),
                }
            }
        }
    }

    // The pair of the variable of the quantifier whose node starts at word `node`: l of the first bound, u of the second.
    #[tactic(auto, unfolding(rule::specs::Figures::range_pair))]
    pub(crate) fn range_pair(&self, nodes: &[u32], node: usize) -> Pair
        requires { node < length nodes.now }
        ensures pair { result ≡ range_pair (bound_at nodes.now (node + 1)) (bound_at nodes.now (node + 4)) (inside self.now) }
        ensures near { NearPair (32768 * (self.now.depth + 1)) result }
    {
        let first = self.pair_at(nodes, node + FIRST_BOUND);
        let second = self.pair_at(nodes, node + SECOND_BOUND);
        Pair {
            lower: first.lower,
            upper: second.upper,
        }
    }
}
