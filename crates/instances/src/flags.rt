// The flags of a rule's node table.
ghost use Rattle.std.specs.Prelude.{◌≡◌, ◌+◌, ◌<◌, get_or};
ghost use Rattle.cell_runs.specs.Calls.{flagged};

use nodes::{FLAG, VARIABLE, node_word};
use rule::Outcome;

// The flag whose node starts at word `node`, at step s.
pub(crate) fn flag_in(nodes: &[u32], node: usize, bytes: &[u8; 5], s: u64) -> Outcome
    requires { get_or nodes.now (node + 1) 0 < 5 }
    ensures { result ≡ flagged bytes.now (get_or nodes.now (node + 1) 0) (get_or nodes.now (node + 2) 0) s }
{
    let variable = node_word(nodes, node, VARIABLE) as usize;
    let k = node_word(nodes, node, FLAG);
    outcomes::flag_outcome(bytes[variable], k, s)
}
