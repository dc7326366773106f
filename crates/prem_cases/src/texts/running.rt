// What runs of a text do, as text.

use crate::texts::checking::fail_told;
use crate::texts::reading::front_told;
use prem_check::check;
use prem_front::parse;
use prem_tree::{Checked, SourceFail, SourceRun, source_run};
use std::alloc::{AllocError, Global};

/// A heading, and the words behind it.
fn words_told(alloc: Global, heading: &str, words: &[u32]) -> Result<String, AllocError> {
    let mut text = String::from_str(alloc, heading)?;
    for word in words {
        text.push_str(format!(in alloc; " {word}")?.as_str())?;
    }
    Ok(text)
}

/// The output words, the functions of the marked calls, the words of each global, and how many inputs were taken.
fn run_told(alloc: Global, run: &SourceRun) -> Result<String, AllocError> {
    let mut text = words_told(alloc, "out", run.outputs.items())?;
    text.push_str("; marks")?;
    for function in run.marks.items() {
        text.push_str(format!(in alloc; " {function}")?.as_str())?;
    }
    for words in run.globals.items() {
        text.push_str(words_told(alloc, "; global", words.items())?.as_str())?;
    }
    text.push_str(format!(in alloc; "; used {}", run.used)?.as_str())?;
    Ok(text)
}

/// All that so many jobs of a program do, or at which line they go wrong.
fn outcome_told(
    alloc: Global,
    program: &Checked,
    inputs: &[u32],
    jobs: u32,
) -> Result<String, AllocError> {
    match source_run(alloc, program, inputs, jobs) {
        Ok(run) => run_told(alloc, &run),
        Err(SourceFail::Wrong { line }) => format!(in alloc; "wrong {line}"),
        Err(SourceFail::OutOfMemory) => String::from_str(alloc, "no memory"),
    }
}

/// What a run of a text does, or why there is none.
pub fn source_told(
    alloc: Global,
    text: &[u8],
    inputs: &[u32],
    jobs: u32,
) -> Result<String, AllocError> {
    match parse(alloc, text) {
        Ok(program) => match check(alloc, program) {
            Ok(checked) => outcome_told(alloc, &checked, inputs, jobs),
            Err(fail) => fail_told(alloc, &fail),
        },
        Err(fail) => front_told(alloc, &fail),
    }
}

/// What comes of a text, where the words are the number of jobs and the inputs.
pub fn line_told(alloc: Global, text: &[u8], words: &str) -> Result<String, AllocError> {
    let mut numbers = Vec::new(alloc);
    for word in words.split_whitespace() {
        match word.parse::<u32>() {
            Ok(number) => numbers.push(number)?,
            Err(_) => return format!(in alloc; "no number {word}"),
        }
    }
    match numbers.as_slice() {
        [jobs, inputs @ ..] => source_told(alloc, text, inputs, *jobs),
        [] => String::from_str(alloc, "no jobs"),
    }
}
