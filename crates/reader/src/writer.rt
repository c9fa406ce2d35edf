// Writes a formula's node: its own bytes, and where its second part starts.
ghost use Rattle.std.specs.Prelude.{◌≡◌, ◌+◌, ◌≤◌, ◌<◌, length, set};
ghost use Rattle.reader.specs.Written.{head_word, Headed, node_start};

use nodes::{FORMULAS, NODE_WORDS, SECOND_PART};
use words::{byte_after, word_at};

// Word `index` of the node of the formula whose bytes start at a position.
#[tactic(auto, unfolding(crate::specs::Written::head_word))]
fn head_word(body: &[u8], at: usize, index: usize) -> u32
    requires { (at < length body.now) × (index < 7) }
    ensures { result ≡ head_word body.now at index }
{
    let word = match index {
        0..=2 => byte_after(body, at, index),
        3 => word_at(body, at + 3),
        6 => word_at(body, at + 7),
        _ => byte_after(body, at, index + 1),
    };
    word as u32
}

// Writes a node's words 0 to 6.
pub(crate) fn write_head(body: &[u8], at: usize, nodes: &mut [u32], node: usize)
    requires { (at < length body.now) × (node + 12 ≤ length nodes.old) }
    ensures { Headed body.now at node nodes.old nodes.new }
{
    for index in 0..7 {
        nodes[node + index] = head_word(body, at, index);
    }
}

// The word at which a formula's node starts, where so many of 64 are left.
pub(crate) fn node_place(left: usize) -> usize
    requires { left ≤ 64 }
    ensures { result ≡ node_start left }
{
    NODE_WORDS * (FORMULAS - left)
}

// Writes where a node's second part starts, whose node is written where so many of 64 are left.
pub(crate) fn write_second(nodes: &mut [u32], node: usize, rest: usize)
    requires { (rest ≤ 64) × (node + 12 ≤ length nodes.old) }
    ensures { nodes.new ≡ set nodes.old (node + 7) (node_start rest) }
{
    nodes[node + SECOND_PART] = node_place(rest) as u32;
}
