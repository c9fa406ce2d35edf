// The lines of `watch` on standard output. A function that prints one writes it whole; where that cannot be, standard error is told why, and nothing
// more may be printed. What is written no contract can say; what a line is, watch_lines says.
use crate::saying::{Told, say_failed};
use crate::writing::write_line;
use refusal::Refusal;
use rule::Figures;
use std::fs::{OpenFile, OpenOptions};
use std::io::ErrorKind;
use std::rt::Runtime;
use std::{fs, str};

// Standard output, as a file that may be opened once more.
const STANDARD_OUTPUT: &str = "/proc/self/fd/1";

// Says a refusal in words on standard error, behind the program's name: there stands each ending that is not the end of the input.
fn say_refusal<R: Runtime>(rt: &R, number: u32) {
    let mut sentence = [0u8; 128];
    let length = refusal_text::sentence(number, &mut sentence);
    let _ = match str::from_utf8(&sentence[..length]) {
        Ok(words) => eprintln!(rt; "watch: refused {number}: {words}"),
        Err(_) => eprintln!(rt; "watch: refused {number}"),
    };
}

// The line of a refusal, with its number.
pub(crate) fn print_refusal<R: Runtime>(rt: &R, refusal: Refusal) -> Result<(), Told> {
    let number = refusal::number(refusal);
    say_refusal(rt, number);
    let line = watch_lines::refused_line(u64::from(number));
    write_line(rt, line.bytes())
}

// The line of a rule's figures.
pub(crate) fn print_figures<R: Runtime>(rt: &R, figures: Figures) -> Result<(), Told> {
    let line = watch_lines::figures_line(figures.history, figures.delay, figures.cells);
    write_line(rt, line.bytes())
}

// The line of a tick that broke the rule, and of the step that said so.
pub(crate) fn print_violation<R: Runtime>(rt: &R, tick: u64, step: u64) -> Result<(), Told> {
    let line = watch_lines::violation_line(tick, step);
    write_line(rt, line.bytes())
}

// The last line: how many steps and violations there were, and how many ticks are live.
pub(crate) fn print_end<R: Runtime>(
    rt: &R,
    ticks: u64,
    violations: u64,
    live: usize,
) -> Result<(), Told> {
    let line = watch_lines::end_line(ticks, violations, live as u64);
    write_line(rt, line.bytes())
}

// Asks for a file on standard output to be kept, once every line is written: a file system may say only now that it could not keep them. What is no file,
// or may not be opened once more, is not asked.
pub(crate) fn close_output<R: Runtime>(rt: &R) {
    let Ok(found) = fs::metadata(rt, STANDARD_OUTPUT) else {
        return;
    };
    if !found.is_file() {
        return;
    }
    let Ok(output) = OpenOptions::new().append(true).open(rt, STANDARD_OUTPUT) else {
        return;
    };
    if let Err(error) = output.sync_data()
        && error.kind() != ErrorKind::InvalidInput
    {
        say_failed(rt, "standard output", &error);
    }
}
