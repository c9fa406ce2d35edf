// Whether the bodies of a range are alike but for their start: one that does not name the range's own variable is evaluated once.
ghost use Rattle.std.specs.Prelude.{◌≡◌, not, ◌&&◌, ◌+◌, ◌≤◌, ◌<◌, ltb};
ghost use Rattle.rule.specs.Naming.{names};
ghost use Rattle.nodes.specs.Table.{formula_in};

use nodes::NODE_WORDS;

// Whether the range at word `node`, inside `depth` quantifiers, has more than one position and a body that does not name its variable. One
// position alone is evaluated as it is, and none costs nothing.
pub(crate) fn alike(nodes: &[u32], left: u64, depth: usize, node: usize, positions: u64) -> bool
    requires { (node ≤ 4294968064) × (depth < 4) }
    ensures { result ≡ (ltb 1 positions && not (names (depth + 1) (formula_in left nodes.now (depth + 1) (node + 12)))) }
{
    let variable = depth + 1;
    1 < positions && !naming::names(nodes, left, variable, node + NODE_WORDS, variable as u32)
}
