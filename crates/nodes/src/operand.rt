// A run of nots, taken in one go.
ghost use Rattle.std.specs.Prelude.{◌≡◌, false};
ghost use Rattle.nodes.specs.Nots.{past_nots};

use crate::{CODE, NODE_WORDS, NOT_CODE, node_word};

// The formula under a run of nots: its word, the formulas left there, and whether the nots are odd in number.
#[derive(Clone, Copy)]
pub struct Operand {
    pub left: usize,
    pub node: usize,
    pub odd: bool,
}

// What stands at word `node`, with `left` formulas left, under the nots that stand there one after another (none: the formula itself).
pub fn skip_nots(nodes: &[u32], left: usize, node: usize) -> Operand
    ensures { result ≡ past_nots left nodes.now node false }
{
    let mut under = Operand {
        left,
        node,
        odd: false,
    };
    // Kept: a while, since it goes on by what stands there, and the place is a word and not an index.
    while 0 < under.left {
        if node_word(nodes, under.node, CODE) != NOT_CODE {
            return under;
        }
        under.left -= 1;
        under.node += NODE_WORDS;
        under.odd = !under.odd;
    }
    under
}
