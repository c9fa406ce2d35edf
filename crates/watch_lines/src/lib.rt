// The lines that the program `watch` prints. Each is put together whole, so that the program can write it at once and whoever follows its output sees
// whole lines.
#![tactic(auto)]

ghost use Rattle.std.specs.Prelude.{◌≡◌};
ghost use Rattle.watch_lines.specs.Lines.{refused_line, figures_line, violation_line, end_line};

mod line;

pub use line::Line;

// The line of a refusal, by its number.
#[tactic(auto, unfolding(crate::specs::Lines::refused_line))]
pub fn refused_line(number: u64) -> Line
    ensures { result ≡ refused_line number }
{
    let mut line = Line::new();
    line.put_field(b"refused ", number);
    line.put_text(b"\n");
    line
}

// The line of an opened rule: its three figures.
#[tactic(auto, unfolding(crate::specs::Lines::figures_line))]
pub fn figures_line(history: u64, delay: u64, cells: u64) -> Line
    ensures { result ≡ figures_line history delay cells }
{
    let mut line = Line::new();
    line.put_field(b"rule 0 history ", history);
    line.put_field(b" delay ", delay);
    line.put_field(b" cells ", cells);
    line.put_text(b"\n");
    line
}

// The line of one violated tick, and of the step that decided it.
#[tactic(auto, unfolding(crate::specs::Lines::violation_line))]
pub fn violation_line(tick: u64, step: u64) -> Line
    ensures { result ≡ violation_line tick step }
{
    let mut line = Line::new();
    line.put_field(b"violation ", tick);
    line.put_field(b" at ", step);
    line.put_text(b"\n");
    line
}

// The last line of a run: the ticks taken, the violations, and the ticks still live.
#[tactic(auto, unfolding(crate::specs::Lines::end_line))]
pub fn end_line(ticks: u64, violations: u64, live: u64) -> Line
    ensures { result ≡ end_line ticks violations live }
{
    let mut line = Line::new();
    line.put_field(b"end ", ticks);
    line.put_field(b" steps ", violations);
    line.put_field(b" violations ", live);
    line.put_text(b" live\n");
    line
}
