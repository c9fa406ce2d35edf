// A body's figures: history, delay and cells, or a refusal (4 to 15, 23, 24); and the sizes that the engine needs, written into the node table.
#![tactic(auto)]

mod figure;
mod limits;
mod measure;
mod scope;

ghost use Rattle.std.specs.Prelude.{◌≡◌};
ghost use Rattle.refusal.specs.Answer.{answer_of};
ghost use Rattle.rule.specs.Figures.{body_figures};
ghost use Rattle.figures.specs.Prepared.{Prepared};

use figure_limits::{clear_if_refused, limit_delay};
use measure::measure_rule;
use nodes::TABLE_WORDS;
use refusal::Refusal;
use rule::Figures;

// Reads a body into the node table, writes the sizes of its nodes (words 8 and 9; none for a range that is always empty, nor in its body) and answers its
// figures. A refusal leaves the table all 0.
pub fn prepare(body: &[u8], nodes: &mut [u32; TABLE_WORDS]) -> Result<Figures, Refusal>
    ensures { Prepared body.now result nodes.new }
{
    reader::read_body(body, nodes)?;
    let figure = measure_rule(nodes);
    let answer = limit_delay(figure.history, figure.delay, figure.cells);
    clear_if_refused(answer, nodes);
    answer
}

// A body's figures, or a refusal: 4 to 15, 23, 24.
pub fn figures(body: &[u8]) -> Result<Figures, Refusal>
    ensures { answer_of result ≡ body_figures body.now }
{
    let mut nodes = [0u32; TABLE_WORDS];
    prepare(body, &mut nodes)
}
