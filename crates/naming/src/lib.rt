// Whether a formula of the node table names a variable.
#![tactic(auto)]

ghost use Rattle.std.specs.Prelude.{◌≡◌};
ghost use Rattle.rule.specs.Naming.{bound_names, names};
ghost use Rattle.nodes.specs.Table.{bound_at, formula_in};

use nodes::{
    BOUND_VARIABLE, Code, FIRST_BOUND, Kind, NESTED, NODE_WORDS, SECOND_BOUND, SECOND_PART,
    VARIABLE, code_at, kind_at, node_word,
};

// The bound whose words start at word `at`: only one of kind 2 has a variable.
#[tactic(auto, using(crate::proofs::Named::none_named_at, crate::proofs::Named::variable_at))]
fn bound_names(nodes: &[u32], at: usize, variable: u32) -> bool
    ensures { result ≡ bound_names variable (bound_at nodes.now at) }
{
    kind_at(nodes, at) == Kind::Variable && node_word(nodes, at, BOUND_VARIABLE) == variable
}

// Whether the formula at word `node`, inside `depth` quantifiers, with `left` formulas left, names the variable: at a flag, or in a bound of a
// quantifier inside. This holds of every table, also of one that no body filled.
pub fn names(nodes: &[u32], left: u64, depth: usize, node: usize, variable: u32) -> bool
    ensures { result ≡ names variable (formula_in left nodes.now depth node) }
{
    if left == 0 {
        return variable == 0;
    }
    match code_at(nodes, node) {
        Code::Not => names(nodes, left - 1, depth, node + NODE_WORDS, variable),
        Code::Then | Code::Beside => {
            let second = node_word(nodes, node, SECOND_PART) as usize;
            names(nodes, left - 1, depth, node + NODE_WORDS, variable)
                || names(nodes, left - 1, depth, second, variable)
        }
        Code::ForAll if NESTED <= depth => variable == 0,
        Code::ForAll => {
            bound_names(nodes, node + FIRST_BOUND, variable)
                || bound_names(nodes, node + SECOND_BOUND, variable)
                || names(nodes, left - 1, depth + 1, node + NODE_WORDS, variable)
        }
        Code::Flag => node_word(nodes, node, VARIABLE) == variable,
    }
}
