// 01's codes of formulas and kinds of bounds, as a table's words and a body's bytes say them.
ghost use Rattle.std.specs.Prelude.{◌≡◌, ◌+◌, get_or};
ghost use Rattle.nodes.specs.Codes.{IsCode, IsKind};

use crate::{
    BESIDE_CODE, CODE, FORALL_CODE, INFINITY_KIND, KIND, NOT_CODE, ORIGIN_KIND, THEN_CODE,
    node_word,
};

// What a formula is.
#[derive(Clone, Copy, Debug, PartialEq, Eq)]
pub enum Code {
    Flag,
    Not,
    Then,
    Beside,
    ForAll,
}

// What a bound starts from.
#[derive(Clone, Copy, Debug, PartialEq, Eq)]
pub enum Kind {
    Origin,
    Infinity,
    Variable,
}

// A table's word: every one but 2 to 5 is a flag's.
impl From<u32> for Code {
    ghost from_gives = { λ word code. IsCode word code };

    fn from(word: u32) -> Code {
        match word {
            NOT_CODE => Code::Not,
            THEN_CODE => Code::Then,
            BESIDE_CODE => Code::Beside,
            FORALL_CODE => Code::ForAll,
            _ => Code::Flag,
        }
    }
}

// A table's word: every one but 0 and 1 is a variable's.
impl From<u32> for Kind {
    ghost from_gives = { λ word kind. IsKind word kind };

    fn from(word: u32) -> Kind {
        match word {
            ORIGIN_KIND => Kind::Origin,
            INFINITY_KIND => Kind::Infinity,
            _ => Kind::Variable,
        }
    }
}

// What the formula is whose node starts at word `node`.
pub fn code_at(nodes: &[u32], node: usize) -> Code
    ensures { IsCode (get_or nodes.now (node + 0) 0) result }
{
    Code::from(node_word(nodes, node, CODE))
}

// What the bound starts from whose three words start at word `at`.
pub fn kind_at(nodes: &[u32], at: usize) -> Kind
    ensures { IsKind (get_or nodes.now (at + 0) 0) result }
{
    Kind::from(node_word(nodes, at, KIND))
}
