// The text of each rule.
ghost use Rattle.std.specs.Prelude.{◌≡◌, ◌++◌, IfOk, codes};
ghost use Rattle.prem_word.specs.Ranges.{span_of};
ghost use Rattle.prem_syntax.specs.Name.{name_bytes};
ghost use Rattle.prem_layout.specs.Rules.{ConflictIn, Length};
ghost use Rattle.prem_tasks.specs.Told.{arg_range, index_outside, region_outside, told_of};
ghost use Rattle.prem_answer.specs.Refusal.Texts.{count_word, late_text, named, range_text, rule_text, type_word};

use crate::refusal::text::{called, ends, named, numbered, ranged, twice_numbered};
use prem_syntax::{Count, Name, TypeRule};
use prem_tasks::Rule;
use prem_word::Range;
use std::alloc::{AllocError, Global};

/// The word for what a program has too many of, or a wrong number of.
fn count_word(which: Count) -> &'static str
    ensures { result.now ≡ count_word which }
{
    match which {
        Count::Functions => "functions",
        Count::Globals => "globals",
        Count::Parameters => "parameters",
        Count::Regions => "regions",
        Count::Length => "length",
        Count::Stated => "stated",
    }
}

/// The word for a rule on types.
fn type_word(rule: TypeRule) -> &'static str
    ensures { result.now ≡ type_word rule }
{
    match rule {
        TypeRule::Void => "void",
        TypeRule::Narrow => "narrow",
        TypeRule::Scalar => "scalar",
        TypeRule::Initial => "initial",
        TypeRule::Count => "count",
        TypeRule::Target => "target",
        TypeRule::Return => "return",
        TypeRule::Marked => "marked",
        TypeRule::Region => "region",
        TypeRule::Range => "range",
        TypeRule::Job => "job",
    }
}

fn limit_text(alloc: Global, which: Count) -> Result<Vec<u8>, AllocError>
    ensures { IfOk result (λ text. text.items ≡ codes "limit " ++ count_word which) }
{
    let word = count_word(which);
    Ok(format!(in alloc; "limit {word}")?.into_bytes())
}

fn type_text(alloc: Global, line: u32, rule: TypeRule) -> Result<Vec<u8>, AllocError>
    ensures { IfOk result (λ text. text.items ≡ named (codes "type") line (type_word rule)) }
{
    named(alloc, "type", line, type_word(rule).as_bytes())
}

fn index_text(alloc: Global, line: u32, r: Range, length: u32) -> Result<Vec<u8>, AllocError>
    ensures { IfOk result (λ text. text.items ≡ range_text (index_outside line (span_of r) length)) }
{
    let mut text = ranged(alloc, "index", line, r)?;
    let rest = format!(in alloc; " {length}")?.into_bytes();
    text.extend_from_slice(&rest)?;
    Ok(text)
}

fn region_text(
    alloc: Global,
    line: u32,
    function: &Name,
    r: Range,
    global: &Name,
) -> Result<Vec<u8>, AllocError>
    ensures { IfOk result (λ text. text.items ≡ range_text (region_outside line (name_bytes function.now) (span_of r) (name_bytes global.now))) }
{
    let mut text = named(alloc, "region", line, function.bytes())?;
    text.extend_from_slice(&ends(alloc, r)?)?;
    text.extend_from_slice(b" ")?;
    text.extend_from_slice(global.bytes())?;
    Ok(text)
}

fn argument_text(alloc: Global, line: u32, r: Range, stated: Range) -> Result<Vec<u8>, AllocError>
    ensures { IfOk result (λ text. text.items ≡ range_text (arg_range line (span_of r) (span_of stated))) }
{
    let mut text = ranged(alloc, "argument", line, r)?;
    text.extend_from_slice(&ends(alloc, stated)?)?;
    Ok(text)
}

fn conflict_text(
    alloc: Global,
    function: &Name,
    set: u32,
    lines: u32,
    ways: u32,
) -> Result<Vec<u8>, AllocError>
    ensures { IfOk result (λ text. text.items ≡ late_text (ConflictIn (name_bytes function.now) set lines ways)) }
{
    let mut text = called(alloc, "conflict", function.bytes())?;
    let rest = format!(in alloc; " {set} {lines} {ways}")?.into_bytes();
    text.extend_from_slice(&rest)?;
    Ok(text)
}

fn length_text(
    alloc: Global,
    function: &Name,
    bound: u64,
    stated: u32,
) -> Result<Vec<u8>, AllocError>
    ensures { IfOk result (λ text. text.items ≡ late_text (Length (name_bytes function.now) bound stated)) }
{
    let mut text = called(alloc, "length", function.bytes())?;
    let rest = format!(in alloc; " {bound} {stated}")?.into_bytes();
    text.extend_from_slice(&rest)?;
    Ok(text)
}

/// The text of a broken rule.
pub fn rule_text(alloc: Global, rule: &Rule) -> Result<Vec<u8>, AllocError>
    ensures { IfOk result (λ text. text.items ≡ rule_text (told_of rule.now)) }
{
    match rule {
        Rule::TooLong => b"too-long".to_vec(alloc),
        Rule::NotText { at } => numbered(alloc, "not-text", *at as u64),
        Rule::Token { line, col } => twice_numbered(alloc, "token", *line as u64, *col as u64),
        Rule::Syntax { line, col } => twice_numbered(alloc, "syntax", *line as u64, *col as u64),
        Rule::TooDeep { line } => numbered(alloc, "too-deep", *line as u64),
        Rule::Limit { which } => limit_text(alloc, *which),
        Rule::NoJob => b"no-job".to_vec(alloc),
        Rule::Unknown { line, name } => named(alloc, "unknown", *line, name.bytes()),
        Rule::Twice { line, name } => named(alloc, "twice", *line, name.bytes()),
        Rule::TypeRule { line, rule } => type_text(alloc, *line, *rule),
        Rule::CallOrder { line } => numbered(alloc, "call-order", *line as u64),
        Rule::MarkedCall { line } => numbered(alloc, "marked-call", *line as u64),
        Rule::SystemCall { line } => numbered(alloc, "system-call", *line as u64),
        Rule::LoopForm { line } => numbered(alloc, "loop-form", *line as u64),
        Rule::LoopBound { line } => numbered(alloc, "loop-bound", *line as u64),
        Rule::TooLarge { line } => numbered(alloc, "too-large", *line as u64),
        Rule::ZeroDivisor { line, range } => ranged(alloc, "zero-divisor", *line, *range),
        Rule::IndexOutside { line, range, len } => index_text(alloc, *line, *range, *len),
        Rule::RegionOutside {
            line,
            function,
            range,
            global,
        } => region_text(alloc, *line, function, *range, global),
        Rule::ArgRange {
            line,
            range,
            stated,
        } => argument_text(alloc, *line, *range, *stated),
        Rule::Depth { line } => numbered(alloc, "depth", *line as u64),
        Rule::Frame { function } => called(alloc, "frame", function.bytes()),
        Rule::MemoryFull { need, have } => twice_numbered(alloc, "memory", *need, *have as u64),
        Rule::Reach { function } => called(alloc, "reach", function.bytes()),
        Rule::Conflict {
            function,
            set,
            lines,
            ways,
        } => conflict_text(alloc, function, *set, *lines, *ways),
        Rule::BoundTooLarge { function } => called(alloc, "bound", function.bytes()),
        Rule::Length {
            function,
            bound,
            stated,
        } => length_text(alloc, function, *bound, *stated),
        Rule::Outputs => b"outputs".to_vec(alloc),
        Rule::Intervals => b"intervals".to_vec(alloc),
    }
}
