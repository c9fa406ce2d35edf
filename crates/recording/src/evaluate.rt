// The formula evaluator and the range walker, over a node table and a recording.
ghost use Rattle.std.specs.Prelude.{◌≡◌, suc, get_or};
ghost use Rattle.rule.specs.declared.Outcome.{Outcome};
ghost use Rattle.rule.specs.Meaning.{verdict, up, outcome};
ghost use Rattle.rule.specs.Recording.{recorded};
ghost use Rattle.rule.specs.Started.{raise};
ghost use Rattle.nodes.specs.Table.{formula_in};
ghost use Rattle.naming.specs.Ranges.{forall_of_node};
ghost use Rattle.recording.specs.Evaluating.{bound_positions, false_by, Evaluable};

use crate::alike::alike;
use crate::env::Env;
use nodes::{Code, FLAG, NESTED, NODE_WORDS, SECOND_PART, VARIABLE, code_at, node_word, skip_nots};
use ranges::{plan_up_to, range_at};
use rule::{Outcome, Verdict};

// What a body is evaluated over: its node table, and a recording of the ticks 0 to t.
#[derive(Clone, Copy)]
pub(crate) struct Over<'a> {
    pub nodes: &'a [u32],
    pub recording: &'a [u8],
    pub t: u64,
}

// Whether no formula started at this step or later can change an outcome beside it, since none is decided before it starts.
fn settled(outcome: Outcome, start: u64) -> bool
    ensures { result ≡ false_by outcome start }
{
    matches!(outcome, Outcome::Decided(Verdict::False, step) if step <= start)
}

// The outcome, at step s or later.
#[tactic(auto, unfolding(rule::specs::Started::raise))]
fn raise(s: u64, outcome: Outcome) -> Outcome
    ensures { result ≡ raise s outcome }
{
    match outcome {
        Outcome::Decided(verdict, step) => Outcome::Decided(verdict, s.max(step)),
        Outcome::Open => Outcome::Open,
    }
}

impl Over<'_> {
    // Flag k at a variable, whose byte is 0 after the recording.
    fn flag(&self, env: Env, variable: u32, k: u32, s: u64) -> Outcome
        ensures { result ≡ Outcome.Decided (verdict (up k (recorded self.now.recording.now (get_or env.pos variable 0)))) s }
    {
        let tick = env.position(variable) as usize;
        let byte = self.recording.get(tick).copied().unwrap_or(0);
        outcomes::flag_outcome(byte, k, s)
    }

    // The outcome over the ticks 0..t of the formula at word `node`, started at step s, with `left` formulas left. It is that of any table; one that the
    // reader filled never runs out of formulas. A run of nots is taken in one call.
    #[cycle(evaluate_walk_range)]
    pub(crate) fn evaluate(&self, left: u64, node: usize, env: Env, s: u64) -> Outcome
        requires { Evaluable left node self.now.t env }
        ensures { result ≡ outcome (formula_in left self.now.nodes.now env.depth node) (recorded self.now.recording.now) self.now.t (bound_positions env) s }
    {
        if left == 0 {
            return self.flag(env, 0, 0, s);
        }
        match code_at(self.nodes, node) {
            Code::Flag => {
                let variable = node_word(self.nodes, node, VARIABLE);
                let k = node_word(self.nodes, node, FLAG);
                self.flag(env, variable, k, s)
            }
            Code::Not => {
                let operand = skip_nots(self.nodes, left as usize, node);
                let outcome = self.evaluate(operand.left as u64, operand.node, env, s);
                outcomes::opposite_if(operand.odd, outcome)
            }
            Code::Then => {
                let second = node_word(self.nodes, node, SECOND_PART) as usize;
                let first = self.evaluate(left - 1, node + NODE_WORDS, env, s);
                match first {
                    Outcome::Decided(Verdict::True, step) => self.evaluate(
                        left - 1,
                        second,
                        env,
                        step,
                    ),
                    Outcome::Decided(Verdict::False, _) => first,
                    Outcome::Open => first,
                }
            }
            Code::Beside => {
                let second = node_word(self.nodes, node, SECOND_PART) as usize;
                let first = self.evaluate(left - 1, node + NODE_WORDS, env, s);
                if settled(first, s) {
                    return first;
                }
                outcomes::both(first, self.evaluate(left - 1, second, env, s))
            }
            Code::ForAll => self.walk_range(left - 1, node, env, s),
        }
    }

    // The outcome of the "for all" at word `node`: its bodies side by side, position by position upward, each started at max(s, q), never above t, and
    // no further once it is settled. Where the body does not name the range's variable, the bodies are alike but for their start: the first is
    // evaluated, and the last is the same, raised. A loop: so many calls as a recording has ticks would be too deep.
    #[cycle(evaluate_walk_range)]
    fn walk_range(&self, left: u64, node: usize, env: Env, s: u64) -> Outcome
        requires { Evaluable (suc left) node self.now.t env }
        ensures { result ≡ outcome (forall_of_node left self.now.nodes.now env.depth node) (recorded self.now.recording.now) self.now.t (bound_positions env) s }
    {
        if NESTED <= env.depth {
            return self.flag(env, 0, 0, s);
        }
        let plan = plan_up_to(range_at(self.nodes, node, &env.pos), self.t, s);
        let alike = alike(self.nodes, left, env.depth, node, plan.count);
        let end = plan.first + plan.count;
        let mut acc = plan.end;
        for q in plan.first..end {
            let start = s.max(q);
            if settled(acc, start) {
                return acc;
            }
            let outcome = self.evaluate(left, node + NODE_WORDS, env.enter(q), start);
            acc = outcomes::both(outcome, acc);
            if alike {
                return outcomes::both(raise(end - 1, outcome), acc);
            }
        }
        acc
    }
}
