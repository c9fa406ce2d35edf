// One formula, moved by one tick at a time over its run of cells.
ghost use Rattle.std.specs.Prelude.{◌≡◌, ◌+◌, ◌<◌, length, get_or};
ghost use Rattle.nodes.specs.Table.{bound_at};
ghost use Rattle.cell_runs.specs.Tree.{then_node, beside_node, range_node, tree_at};
ghost use Rattle.cell_runs.specs.Calls.{Fit, SlotFit, WalkFit, PartFit, Advanced, PositionAdvanced, PositionsWalked, PartAdvanced};

use crate::flags::flag_in;
use crate::head::{load_head, move_head};
use crate::marks::{load_outcome, own_tick, store_outcome};
use cell_runs::Variables;
use cells::CELL_WORDS;
use nodes::{
    Code, FIRST_WORDS, NODE_WORDS, SECOND_PART, SLOT_WORDS, TABLE_WORDS, code_at, is_flag,
    node_word, skip_nots,
};
use ring::byte_of;
use rule::{Outcome, Verdict};

// How many numbers a byte can hold.
const BYTE_VALUES: u32 = 256;

// What moving a formula to tick t reads: the rule's node table, the history before t, and the flag byte of t.
#[derive(Clone, Copy)]
pub(crate) struct Tick<'a> {
    pub nodes: &'a [u32; TABLE_WORDS],
    pub history: &'a [u8],
    pub flag: u8,
    pub t: u64,
}

// A formula of the node table: the word at which its node starts, and how many formulas are left to it.
#[derive(Clone, Copy)]
pub(crate) struct Node {
    pub left: usize,
    pub word: usize,
}

// Where a run has one of its parts: the words from `from` to `to`, and its outcome in the words `index` and `index` + 2.
#[derive(Clone, Copy)]
struct Place {
    index: usize,
    from: usize,
    to: usize,
}

// So many positions from `first` on, each in its slot of `size` words, of which the leading ones are true, and what stands beside them all.
#[derive(Clone, Copy)]
struct Walk {
    first: u64,
    leading: u64,
    positions: u64,
    end: Outcome,
    size: usize,
}

impl Tick<'_> {
    // Moves a part of a run; one that was decided before is answered from its outcome's words.
    #[cycle(moves)]
    fn advance_part(
        &self,
        variables: &Variables,
        node: Node,
        place: Place,
        run: &mut [u32],
        s: u64,
    ) -> Outcome
        requires { PartFit (tree_at node.left self.now.nodes.now node.word) variables.now self.now.t place.index place.from place.to (length run.old) }
        ensures { PartAdvanced (tree_at node.left self.now.nodes.now node.word) self.now.history.now self.now.flag variables.now s self.now.t place.index place.from place.to run.old result run.new }
    {
        let p = own_tick(variables);
        if self.t != s {
            let held = load_outcome(run, place.index, p);
            if let Outcome::Decided(_, _) = held {
                return held;
            }
        }
        let outcome = self.advance(variables, node, &mut run[place.from..place.to], s);
        store_outcome(run, place.index, p, outcome);
        outcome
    }

    // One position q of a range, in its slot: the position's cell, then the body's run. The byte at q is saved when the body starts.
    #[cycle(moves)]
    pub(crate) fn advance_position(
        &self,
        variables: &Variables,
        node: Node,
        slot: &mut [u32],
        s: u64,
        q: u64,
    ) -> Outcome
        requires { SlotFit (tree_at node.left self.now.nodes.now node.word) variables.now self.now.t q (length slot.old) }
        ensures { PositionAdvanced (tree_at node.left self.now.nodes.now node.word) self.now.history.now self.now.flag variables.now s self.now.t q slot.old result slot.new }
    {
        let start = s.max(q);
        if self.t == start {
            slot[1] = u32::from(byte_of(self.history, self.flag, self.t, q));
        }
        let mut inner = *variables;
        inner.pos[variables.known] = q;
        inner.bytes[variables.known] = (slot[1] % BYTE_VALUES) as u8;
        inner.known += 1;
        let place = Place {
            index: 0,
            from: CELL_WORDS,
            to: slot.len(),
        };
        self.advance_part(&inner, node, place, slot, start)
    }

    // The positions after the leading ones, all side by side, and the end beside them. It goes no further once one is false: the range is then false
    // at this step, and its cells are not looked at again.
    #[cycle(moves)]
    fn walk_positions(
        &self,
        variables: &Variables,
        node: Node,
        run: &mut [u32],
        s: u64,
        walk: Walk,
    ) -> Outcome
        requires { WalkFit (tree_at node.left self.now.nodes.now node.word) variables.now self.now.t walk.first walk.leading walk.positions walk.size (length run.old) }
        ensures { PositionsWalked (tree_at node.left self.now.nodes.now node.word) self.now.history.now self.now.flag variables.now s self.now.t walk.first walk.leading walk.positions walk.end walk.size run.old result run.new }
    {
        let mut acc = walk.end;
        for index in (walk.leading..walk.positions).rev() {
            let at = (index as usize) * walk.size;
            let slot = &mut run[at..at + walk.size];
            let outcome = self.advance_position(variables, node, slot, s, walk.first + index);
            acc = outcomes::both(outcome, acc);
            if outcomes::is_false(outcome) {
                return acc;
            }
        }
        acc
    }

    // The range whose node starts at `node.word`.
    #[cycle(moves)]
    fn advance_range(&self, variables: &Variables, node: Node, run: &mut [u32], s: u64) -> Outcome
        requires { (node.word < 768) × Fit (range_node (bound_at self.now.nodes.now (node.word + 1)) (bound_at self.now.nodes.now (node.word + 4)) (get_or self.now.nodes.now (node.word + 8) 0) (tree_at node.left self.now.nodes.now (node.word + 12))) variables.now self.now.t (length run.old) }
        ensures { Advanced (range_node (bound_at self.now.nodes.now (node.word + 1)) (bound_at self.now.nodes.now (node.word + 4)) (get_or self.now.nodes.now (node.word + 8) 0) (tree_at node.left self.now.nodes.now (node.word + 12))) self.now.history.now self.now.flag variables.now s self.now.t run.old result run.new }
    {
        let nodes = self.nodes;
        let size = node_word(nodes, node.word, SLOT_WORDS) as usize;
        let span = ranges::range_at(nodes, node.word, &variables.pos);
        let plan = ranges::plan_up_to(span, self.t, s);
        let p = own_tick(variables);
        let head = load_head(run, p, s, self.t, plan.count);
        let walk = Walk {
            first: plan.first,
            leading: head.leading,
            positions: plan.count,
            end: plan.end,
            size,
        };
        let body = Node {
            word: node.word + NODE_WORDS,
            ..node
        };
        let rest = self.walk_positions(variables, body, &mut run[CELL_WORDS..], s, walk);
        move_head(run, head, plan.count, size, p);
        outcomes::both(Outcome::Decided(Verdict::True, head.latest), rest)
    }

    // "Then" at `node.word`: its first part, then the second, which is started at the first one's step.
    #[cycle(moves)]
    fn advance_then(&self, variables: &Variables, node: Node, run: &mut [u32], s: u64) -> Outcome
        requires { (node.word < 768) × Fit (then_node (tree_at node.left self.now.nodes.now (node.word + 12)) (tree_at node.left self.now.nodes.now (get_or self.now.nodes.now (node.word + 7) 0))) variables.now self.now.t (length run.old) }
        ensures { Advanced (then_node (tree_at node.left self.now.nodes.now (node.word + 12)) (tree_at node.left self.now.nodes.now (get_or self.now.nodes.now (node.word + 7) 0))) self.now.history.now self.now.flag variables.now s self.now.t run.old result run.new }
    {
        let place = Place {
            index: 0,
            from: CELL_WORDS,
            to: run.len(),
        };
        let first_node = Node {
            word: node.word + NODE_WORDS,
            ..node
        };
        let first = self.advance_part(variables, first_node, place, run, s);
        match first {
            Outcome::Decided(Verdict::True, step) => {
                let nodes = self.nodes;
                let second_node = Node {
                    word: node_word(nodes, node.word, SECOND_PART) as usize,
                    ..node
                };
                self.advance(variables, second_node, &mut run[CELL_WORDS..], step)
            }
            Outcome::Decided(Verdict::False, _) => first,
            Outcome::Open => first,
        }
    }

    // "Beside" at `node.word`: its first part, in the words that the node says, and the second, which is left out where the first is false.
    #[cycle(moves)]
    fn advance_beside(&self, variables: &Variables, node: Node, run: &mut [u32], s: u64) -> Outcome
        requires { (node.word < 768) × Fit (beside_node (get_or self.now.nodes.now (node.word + 9) 0) (tree_at node.left self.now.nodes.now (node.word + 12)) (tree_at node.left self.now.nodes.now (get_or self.now.nodes.now (node.word + 7) 0))) variables.now self.now.t (length run.old) }
        ensures { Advanced (beside_node (get_or self.now.nodes.now (node.word + 9) 0) (tree_at node.left self.now.nodes.now (node.word + 12)) (tree_at node.left self.now.nodes.now (get_or self.now.nodes.now (node.word + 7) 0))) self.now.history.now self.now.flag variables.now s self.now.t run.old result run.new }
    {
        let nodes = self.nodes;
        let length = run.len();
        let mid = CELL_WORDS + node_word(nodes, node.word, FIRST_WORDS) as usize;
        let place = Place {
            index: 0,
            from: CELL_WORDS,
            to: mid,
        };
        let first_node = Node {
            word: node.word + NODE_WORDS,
            ..node
        };
        let first = self.advance_part(variables, first_node, place, run, s);
        if outcomes::is_false(first) {
            return first;
        }
        let place = Place {
            index: 1,
            from: mid,
            to: length,
        };
        let second_node = Node {
            word: node_word(nodes, node.word, SECOND_PART) as usize,
            ..node
        };
        let second = self.advance_part(variables, second_node, place, run, s);
        outcomes::both(first, second)
    }

    // A run of nots from `node.word` on: what stands under it has the same run of cells, and is moved in one call.
    #[cycle(moves)]
    fn advance_not(&self, variables: &Variables, node: Node, run: &mut [u32], s: u64) -> Outcome
        requires { (node.left ≡ 0 → ⊥) × ((get_or self.now.nodes.now (node.word + 0) 0 ≡ 2) × Fit (tree_at node.left self.now.nodes.now node.word) variables.now self.now.t (length run.old)) }
        ensures { Advanced (tree_at node.left self.now.nodes.now node.word) self.now.history.now self.now.flag variables.now s self.now.t run.old result run.new }
    {
        let nodes = self.nodes;
        let operand = skip_nots(nodes, node.left, node.word);
        let under = Node {
            left: operand.left,
            word: operand.node,
        };
        let outcome = self.advance(variables, under, run, s);
        outcomes::opposite_if(operand.odd, outcome)
    }

    // Moves the formula at `node`, started at s, to tick t. Flags come most often, and are looked for first.
    #[cycle(moves)]
    fn advance(&self, variables: &Variables, node: Node, run: &mut [u32], s: u64) -> Outcome
        requires { Fit (tree_at node.left self.now.nodes.now node.word) variables.now self.now.t (length run.old) }
        ensures { Advanced (tree_at node.left self.now.nodes.now node.word) self.now.history.now self.now.flag variables.now s self.now.t run.old result run.new }
    {
        let nodes = self.nodes;
        if is_flag(nodes, node.left, node.word) {
            return flag_in(nodes, node.word, &variables.bytes, s);
        }
        let parts = Node {
            left: node.left - 1,
            ..node
        };
        match code_at(nodes, node.word) {
            // proved never to be reached: flags are answered above
            Code::Flag => unreachable!(),
            Code::Not => self.advance_not(variables, node, run, s),
            Code::Then => self.advance_then(variables, parts, run, s),
            Code::Beside => self.advance_beside(variables, parts, run, s),
            Code::ForAll => self.advance_range(variables, parts, run, s),
        }
    }
}
