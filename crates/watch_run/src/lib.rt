// The program `watch`: reads the file watch.sheet (a missing one counts as empty), opens rule 0, takes flag bytes from standard input to its end and
// prints what document 01 says. It is a library, so that a program for each test case can run it. Its functions answer nothing and read and write
// outside of the program: no contract can say what, so they have none beyond being safe and ending. What they print, the engine's contracts and
// watch_lines say; the programs' files `stdout` hold the two to document 01's words. Standard error has a line for each ending that is not the end of
// the input, which begins with `watch: `: bin/watch makes the exit status of it.
#![tactic(auto)]

mod output;
mod reading;
mod saying;
mod sheet_file;
mod waiting;
mod watching;
mod writing;

use output::{close_output, print_figures, print_refusal};
use refusal::Refusal;
use rule::Figures;
use saying::Told;
use sheet_file::load;
use std::rt::Runtime;
use watching::Watch;

// The figures of rule 0. The first line shows them, so they are read before the rule is opened; the refusals of sheet and figures are those of opening.
fn first_figures(sheet: &[u8]) -> Result<Figures, Refusal> {
    figures::figures(sheet::body_in(sheet, 0)?)
}

// Opens rule 0 and takes the input. It lends the history that the figure asks for, at most 4,096 bytes, as many cells as a rule may need, 4,096 of four
// words, and room for 2,048 pairs of a tick and its step, of which one step reports at most 256.
fn watch_rule<R: Runtime>(rt: &R, sheet: &[u8], figures: Figures) -> Result<(), Told> {
    let mut history = [0u8; 4096];
    let mut cells = [0u32; 16384];
    let mut report = [0u64; 4096];
    // No figure of a history is above 4,096: a proof is told so by a test.
    let Some(history) = history.get_mut(..figures.history as usize) else {
        return Err(Told);
    };
    match engine::open(sheet, 0, history, &cells) {
        Ok(state) => {
            print_figures(rt, figures)?;
            let mut watch = Watch {
                state,
                history,
                cells: &mut cells,
                report: &mut report,
                violations: 0,
            };
            watch.take_input(rt)
        }
        Err(refusal) => print_refusal(rt, refusal),
    }
}

// Runs rule 0 of a sheet over standard input.
fn run_sheet<R: Runtime>(rt: &R, sheet: &[u8]) -> Result<(), Told> {
    match first_figures(sheet) {
        Ok(figures) => watch_rule(rt, sheet, figures),
        Err(refusal) => print_refusal(rt, refusal),
    }
}

// The program over a sheet that is at hand.
pub fn watch_sheet<R: Runtime>(rt: &R, sheet: &[u8]) {
    let _ = run_sheet(rt, sheet);
}

// The whole program.
pub fn watch<R: Runtime>(rt: &R) {
    let mut buf = [0u8; 65536];
    let count = load(rt, &mut buf);
    if run_sheet(rt, &buf[..count]).is_ok() {
        close_output(rt);
    }
}
