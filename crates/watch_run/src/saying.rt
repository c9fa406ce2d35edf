// What standard error is told. A line that cannot be written there is left out: there is nowhere else to say it.
use std::io;
use std::rt::Runtime;

// What a function answers that could not go on: standard error has been told why, but at the ends that no run reaches.
#[derive(Clone, Copy, Debug, PartialEq, Eq)]
pub(crate) struct Told;

// The system's words of an error, which std gives with its number behind them, as in `Broken pipe (os error 32)`.
fn words_of(text: &str) -> &str {
    text.split_once(" (os error ")
        .map_or(text, |(words, _)| words)
}

// Says that a call on a file failed and why, as `watch: standard output: Broken pipe`.
pub(crate) fn say_failed<R: Runtime>(rt: &R, file: &str, error: &io::Error) -> Told {
    let _ = match format!(in rt.alloc(); "{error}") {
        Ok(text) => {
            let words = words_of(text.as_str());
            eprintln!(rt; "watch: {file}: {words}")
        }
        Err(_) => eprintln!(rt; "watch: {file}: {error}"),
    };
    Told
}
