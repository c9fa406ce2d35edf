// A formula of the node table as text.
ghost use Rattle.std.specs.Prelude.{◌≡◌, ◌≤◌, ◌<◌, length};
ghost use Rattle.nodes.specs.Table.{formula_in};
ghost use Rattle.body_to_text.specs.Storing.{Adds};
ghost use Rattle.body_to_text.specs.Parts.{sign_text, range_at, part_place, Printed, rule_text};
ghost use Rattle.body_to_text.specs.Writable.{FlagsFit};

use crate::writer::Writer;
use nodes::{
    Code, FIRST_BOUND, FLAG, FORMULAS, NODE_WORDS, SECOND_BOUND, SECOND_PART, VARIABLE, code_at,
    node_word,
};

// A formula's place in the node table: the formulas left there, the quantifiers around it, and its word.
#[derive(Clone, Copy)]
pub(crate) struct Place {
    pub left: usize,
    pub depth: u32,
    pub node: usize,
}

impl Place {
    // The place of a part: inside `depth` quantifiers, at word `node`.
    fn part(&self, depth: u32, node: usize) -> Place
        requires { 1 ≤ self.now.left }
        ensures { result ≡ part_place self.now depth node }
    {
        Place {
            left: self.left - 1,
            depth,
            node,
        }
    }
}

impl Writer {
    // Writes the sign between two parts.
    fn put_sign(&mut self, code: Code)
        ensures { Adds (sign_text code) self.old self.new }
    {
        match code {
            Code::Then => self.put_word(b" && "),
            _ => self.put_word(b" /\\ "),
        }
    }

    // Writes what the quantifier at word `node` has before its part; it binds `variable`.
    fn put_range(&mut self, nodes: &[u32], node: usize, variable: u32)
        requires { node < length nodes.now }
        ensures { Adds (range_at nodes.now node variable) self.old self.new }
    {
        self.put_word(b"forall ");
        self.put_name(variable);
        self.put_word(b" in ");
        self.put_bound(nodes, node + FIRST_BOUND);
        self.put_word(b"..");
        self.put_bound(nodes, node + SECOND_BOUND);
        self.put_word(b" : ");
    }

    // Writes the formula at a place. It is that of any table; one that the reader filled never runs out of formulas.
    fn put_formula(&mut self, nodes: &[u32], place: Place)
        ensures { Printed nodes.now place self.old self.new }
    {
        if place.left == 0 {
            return self.put_flag(0, 0);
        }
        let code = code_at(nodes, place.node);
        match code {
            Code::Not => {
                self.put(b'~');
                self.put_formula(nodes, place.part(place.depth, place.node + NODE_WORDS));
            }
            Code::Then | Code::Beside => {
                self.put(b'(');
                self.put_formula(nodes, place.part(place.depth, place.node + NODE_WORDS));
                self.put_sign(code);
                let second = node_word(nodes, place.node, SECOND_PART) as usize;
                self.put_formula(nodes, place.part(place.depth, second));
                self.put(b')');
            }
            Code::ForAll if 4 <= place.depth => self.put_flag(0, 0),
            Code::ForAll => {
                let depth = place.depth + 1;
                self.put_range(nodes, place.node, depth);
                self.put_formula(nodes, place.part(depth, place.node + NODE_WORDS));
            }
            Code::Flag => {
                let variable = node_word(nodes, place.node, VARIABLE);
                self.put_flag(variable, node_word(nodes, place.node, FLAG));
            }
        }
    }

    // Writes the whole text of the rule whose table is filled.
    pub(crate) fn put_rule(&mut self, nodes: &[u32])
        ensures { FlagsFit (formula_in 64 nodes.now 0 0) → Adds (rule_text nodes.now) self.old self.new }
    {
        self.put_word(b"monitor x : ");
        let whole = Place {
            left: FORMULAS,
            depth: 0,
            node: 0,
        };
        self.put_formula(nodes, whole);
    }
}
