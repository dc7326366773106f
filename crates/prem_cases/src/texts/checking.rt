// What comes of the check of a text, as text.

use crate::texts::reading::front_told;
use prem_check::{CheckFail, Count, TypeRule, check};
use prem_front::parse;
use prem_syntax::Name;
use std::alloc::{AllocError, Global};

/// What there is too much of.
fn count_told(which: Count) -> &'static str {
    match which {
        Count::Functions => "functions",
        Count::Globals => "globals",
        Count::Parameters => "parameters",
        Count::Regions => "regions",
        Count::Length => "length",
        Count::Stated => "stated",
    }
}

/// The rule on types.
fn rule_told(rule: TypeRule) -> &'static str {
    match rule {
        TypeRule::Void => "void",
        TypeRule::Narrow => "narrow",
        TypeRule::Scalar => "scalar",
        TypeRule::Initial => "initial",
        TypeRule::Count => "count",
        TypeRule::Target => "target",
        TypeRule::Return => "return",
        TypeRule::Marked => "marked",
        TypeRule::Region => "region",
        TypeRule::Range => "range",
        TypeRule::Job => "job",
    }
}

/// The text of a name.
fn name_told(name: &Name) -> &str {
    match std::str::from_utf8(name.bytes()) {
        Ok(text) => text,
        Err(_) => "?",
    }
}

/// The rule that is broken.
pub fn fail_told(alloc: Global, fail: &CheckFail) -> Result<String, AllocError> {
    match fail {
        CheckFail::Limit { which } => {
            let which = count_told(*which);
            format!(in alloc; "limit {which}")
        }
        CheckFail::NoJob => String::from_str(alloc, "no-job"),
        CheckFail::Unknown { line, name } => {
            let name = name_told(name);
            format!(in alloc; "unknown {line} {name}")
        }
        CheckFail::Twice { line, name } => {
            let name = name_told(name);
            format!(in alloc; "twice {line} {name}")
        }
        CheckFail::TypeRule { line, rule } => {
            let rule = rule_told(*rule);
            format!(in alloc; "type {line} {rule}")
        }
        CheckFail::CallOrder { line } => format!(in alloc; "call-order {line}"),
        CheckFail::MarkedCall { line } => format!(in alloc; "marked-call {line}"),
        CheckFail::SystemCall { line } => format!(in alloc; "system-call {line}"),
        CheckFail::LoopForm { line } => format!(in alloc; "loop-form {line}"),
        CheckFail::OutOfMemory => String::from_str(alloc, "no memory"),
    }
}

/// `ok`, or why the text is no program, or the first rule that its program breaks.
pub fn check_told(alloc: Global, text: &[u8]) -> Result<String, AllocError> {
    match parse(alloc, text) {
        Ok(program) => match check(alloc, program) {
            Ok(_checked) => String::from_str(alloc, "ok"),
            Err(fail) => fail_told(alloc, &fail),
        },
        Err(fail) => front_told(alloc, &fail),
    }
}
