// Outcomes as lines of text, for the programs that run cases. What the text of an outcome is, specs/Texts.antt says; that a line is written no contract
// can say: the programs' files `stdout` hold it.
#![tactic(auto)]

ghost use Rattle.std.specs.Prelude.{Some};
ghost use Rattle.outcome_text.specs.Texts.{refused_text, shown_text};

use refusal::Refusal;
use rule::{Outcome, Verdict};
use std::{fmt, io};

// An outcome or a refusal, as `false at 7`, `open` or `refused 16`.
#[derive(Clone, Copy)]
pub struct Shown(pub Result<Outcome, Refusal>);

impl fmt::Display for Shown {
    ghost output = { λ shown. Some (shown_text shown.0) };

    fn fmt<W: fmt::Write>(&self, to: &mut fmt::Formatter<W>) -> fmt::Result {
        match self.0 {
            Ok(Outcome::Decided(Verdict::True, step)) => write!(to, "true at {step}"),
            Ok(Outcome::Decided(Verdict::False, step)) => write!(to, "false at {step}"),
            Ok(Outcome::Open) => write!(to, "open"),
            Err(refusal) => write!(to, "{}", Refused(refusal)),
        }
    }
}

// A refusal by its number, as `refused 16`.
#[derive(Clone, Copy)]
pub struct Refused(pub Refusal);

impl fmt::Display for Refused {
    ghost output = { λ refused. Some (refused_text refused.0) };

    fn fmt<W: fmt::Write>(&self, to: &mut fmt::Formatter<W>) -> fmt::Result {
        let number = refusal::number(self.0);
        write!(to, "refused {number}")
    }
}

// A name and then bytes, each as a space and two digits.
pub fn bytes(out: &impl Print, name: &[u8], content: &[u8]) -> io::Result<()> {
    out.write_all(name)?;
    for byte in content {
        print!(out; " {byte:02x}")?;
    }
    out.println("")
}

// The outcome of a body at a tick, as `5: false at 7`, `5: open` or `5: refused 16`.
pub fn outcome(out: &impl Print, body: &[u8], flags: &[u8], tick: usize) -> io::Result<()> {
    let shown = Shown(recording::outcome_at(body, flags, tick));
    println!(out; "{tick}: {shown}")
}
