// The body reader: a body's formula into the node table, or its refusal: 4 to 10, 23 or 24.
#![tactic(auto)]

mod writer;

ghost use Rattle.std.specs.Prelude.{◌≡◌, ◌+◌, ◌-◌, ◌^◌, ◌<◌, ◌≤◌, length};
ghost use Rattle.reader.specs.Filled.{Filled};
ghost use Rattle.reader.specs.Decoded.{Decoded};

use formula_bytes::head_check;
use nodes::{FLAG_CODE_BYTE, FORALL_CODE_BYTE, FORMULAS, NOT_CODE_BYTE, TABLE_WORDS, clear};
use refusal::Refusal;
use writer::{node_place, write_head, write_second};

// Where the reading stands: at which byte, and with how many formulas left.
#[derive(Clone, Copy)]
struct Position {
    at: usize,
    left: usize,
}

impl Position {
    // One formula and so many bytes on.
    fn past(self, bytes: usize) -> Position
        requires { (1 ≤ self.left) × (self.at + bytes < 2 ^ 64) }
        ensures { result ≡ record { at = self.at + bytes; left = self.left - 1 } }
    {
        Position {
            at: self.at + bytes,
            left: self.left - 1,
        }
    }
}

// Reads the formula at a position, inside `depth` quantifiers, into the table, and answers the position after it.
#[tactic(auto, using(crate::proofs::Ends::head_there, crate::proofs::Ends::head_left, crate::proofs::Ends::head_nested))]
fn read_formula(
    body: &[u8],
    nodes: &mut [u32],
    start: Position,
    depth: usize,
) -> Result<Position, Refusal>
    requires { (start.left ≤ 64) × (768 ≤ length nodes.old) }
    ensures { Filled body.now start.at depth start.left nodes.old result nodes.new }
{
    head_check(body, start.at, depth, start.left)?;
    let node = node_place(start.left);
    write_head(body, start.at, nodes, node);
    match body[start.at] {
        FLAG_CODE_BYTE => Ok(start.past(3)),
        NOT_CODE_BYTE => read_formula(body, nodes, start.past(1), depth),
        FORALL_CODE_BYTE => read_formula(body, nodes, start.past(9), depth + 1),
        _ => {
            let second = read_formula(body, nodes, start.past(1), depth)?;
            write_second(nodes, node, second.left);
            read_formula(body, nodes, second, depth)
        }
    }
}

// Reads a body into the node table; a body that is refused leaves it all 0. The table is memory to work in: nothing is said of the words after
// the body's nodes.
pub fn read_body(body: &[u8], nodes: &mut [u32; TABLE_WORDS]) -> Result<(), Refusal>
    ensures { Decoded body.now result nodes.new }
{
    let start = Position {
        at: 0,
        left: FORMULAS,
    };
    match read_formula(body, nodes, start, 0) {
        Ok(end) if end.at == body.len() => Ok(()),
        Ok(_) => {
            clear(nodes);
            Err(Refusal::BytesLeftOver)
        }
        Err(refusal) => {
            clear(nodes);
            Err(refusal)
        }
    }
}
