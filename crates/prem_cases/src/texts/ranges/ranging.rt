// What comes of the analysis of a text, as text.

use super::names::{function_name, global_name};
use prem_analysis::{Analysed, RangeFail, analyse};
use prem_check::check;
use prem_front::parse;
use prem_syntax::{Item, Program};
use prem_word::Range;
use std::alloc::{AllocError, Global};

/// The turn bounds of all loops, in the order of the text.
fn turns_told(alloc: Global, analysed: &Analysed) -> Result<String, AllocError> {
    let mut text = String::from_str(alloc, "turns")?;
    for n in 0..1000 {
        match analysed.turns(n) {
            Some(turns) => text.push_str(format!(in alloc; " {turns}")?.as_str())?,
            None => return Ok(text),
        }
    }
    Ok(text)
}

/// The least and the greatest number of a range.
fn ends(alloc: Global, range: &Range) -> Result<String, AllocError> {
    let (lo, hi) = (range.lo, range.hi);
    format!(in alloc; "{lo} {hi}")
}

/// The rule that is broken by a program of these items.
fn fail_told(alloc: Global, items: &[Item], fail: &RangeFail) -> Result<String, AllocError> {
    match fail {
        RangeFail::LoopBound { line } => format!(in alloc; "loop-bound {line}"),
        RangeFail::TooLarge { line } => format!(in alloc; "too-large {line}"),
        RangeFail::ZeroDivisor { line, range } => {
            let range = ends(alloc, range)?;
            format!(in alloc; "zero-divisor {line} {range}")
        }
        RangeFail::IndexOutside { line, range, len } => {
            let range = ends(alloc, range)?;
            format!(in alloc; "index {line} {range} {len}")
        }
        RangeFail::RegionOutside {
            line,
            function,
            range,
            global,
        } => {
            let range = ends(alloc, range)?;
            let function = function_name(items, u64::from(*function));
            let global = global_name(items, u64::from(*global));
            format!(in alloc; "region {line} {function} {range} {global}")
        }
        RangeFail::ArgRange {
            line,
            range,
            stated,
        } => {
            let range = ends(alloc, range)?;
            let stated = ends(alloc, stated)?;
            format!(in alloc; "argument {line} {range} {stated}")
        }
        RangeFail::OutOfMemory => String::from_str(alloc, "no memory"),
    }
}

/// What the analysis of a program gives, whose items are these.
fn analysis_told(alloc: Global, items: &[Item], program: Program) -> Result<String, AllocError> {
    match check(alloc, program) {
        Ok(checked) => match analyse(alloc, checked) {
            Ok(analysed) => turns_told(alloc, &analysed),
            Err(fail) => fail_told(alloc, items, &fail),
        },
        Err(_) => String::from_str(alloc, "breaks another rule"),
    }
}

/// The turn bounds of a text's program, or the first rule on ranges that it breaks. The text is read twice, since the
/// check takes the program and the names are looked up in it.
pub fn range_told(alloc: Global, text: &[u8]) -> Result<String, AllocError> {
    match (parse(alloc, text), parse(alloc, text)) {
        (Ok(named), Ok(program)) => analysis_told(alloc, named.items.items(), program),
        _ => String::from_str(alloc, "no program"),
    }
}
