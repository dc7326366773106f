// A profile in callgrind's format, version 1 (the specification is a part of Valgrind's technical documentation).
ghost use Rattle.std.specs.Prelude.{◌≡◌, ◌+◌, ◌<◌, ◌^◌, ◌++◌, [], ◌∷◌, codes, decimal, drop, length, map, take, slice_get, slice_index_or, OnOk, IfOk, IfSome, IsNone, Some, None};
ghost use Rattle.prem_profile.specs.Strips.{first_row, strip_of, strip_words};
ghost use Rattle.prem_profile.specs.Calls.{narrow};
ghost use Rattle.prem_profile.specs.Grammar.{cost_text};
ghost use Rattle.prem_profile.specs.Callgrind.{callee_lines, callee_of, calls_at, calls_text, cost_line, file_byte, file_line, file_text, first_line, function_head, function_line, head_text, is_nothing, lines_behind, lines_text, machine_head, machine_text, name_byte, name_text, nowhere_head, object_line, opening, profile_text, row_text, source_at, spent_line, strip_text, strips_text, switch_line, switch_opening, switch_text, switches_text, total_text};

use crate::account::cost_at;
use crate::calls::{Calls, WideCost, wide_at};
use crate::cost::Cost;
use crate::strip::Strip;
use prem_plant::Label;
use std::alloc::{AllocError, Global};

/// A task, as a profile tells it.
#[derive(Drop)]
pub struct Source {
    /// Its name.
    pub name: Label,
    /// The name of the file of its source.
    pub file: Label,
}

/// Puts the numbers of a cost behind a text.
fn push_cost(alloc: Global, text: &mut Vec<u8>, cost: Cost) -> Result<(), AllocError>
    ensures { OnOk result (text.new.items ≡ text.old.items ++ cost_text cost) }
{
    let (instructions, cycles) = (cost.instructions, cost.cycles);
    let (misses, backs) = (cost.misses, cost.backs);
    let numbers = format!(in alloc; "{instructions} {cycles} {misses} {backs}")?;
    text.extend_from_slice(numbers.as_bytes())
}

/// Puts a number behind a text.
fn push_number(alloc: Global, text: &mut Vec<u8>, n: u32) -> Result<(), AllocError>
    ensures { OnOk result (text.new.items ≡ text.old.items ++ decimal n) }
{
    let digits = format!(in alloc; "{n}")?;
    text.extend_from_slice(digits.as_bytes())
}

/// Whether nothing was spent.
fn is_nothing(cost: Cost) -> bool
    ensures { result ≡ is_nothing cost }
{
    (cost.instructions == 0 && cost.cycles == 0) && (cost.misses == 0 && cost.backs == 0)
}

/// Puts what was spent at a line behind a text, if anything was.
fn push_cost_line(
    alloc: Global,
    text: &mut Vec<u8>,
    line: u32,
    cost: Cost,
) -> Result<(), AllocError>
    ensures { OnOk result (text.new.items ≡ text.old.items ++ cost_line line cost) }
{
    if is_nothing(cost) {
        return Ok(());
    }
    push_number(alloc, text, line)?;
    text.extend_from_slice(b" ")?;
    push_cost(alloc, text, cost)?;
    text.extend_from_slice(b"\n")
}

/// A byte of a file's name, in whose place no line may end.
fn file_byte(byte: u8) -> u8
    ensures { result ≡ file_byte byte }
{
    if byte == b'\n' { b'_' } else { byte }
}

/// Puts the name of a file behind a text.
fn push_file(text: &mut Vec<u8>, file: &[u8]) -> Result<(), AllocError>
    ensures { OnOk result (text.new.items ≡ text.old.items ++ file_text file.now) }
{
    'bytes: for byte in file {
        text.push(file_byte(*byte))?;
    }
    Ok(())
}

/// Puts what every file begins with behind a text.
#[tactic(auto, unfolding(crate::specs::Callgrind::opening))]
fn push_opening(text: &mut Vec<u8>) -> Result<(), AllocError>
    ensures { OnOk result (text.new.items ≡ text.old.items ++ opening) }
{
    text.extend_from_slice(
        b"# callgrind format\nversion: 1\ncreator: prem_profile\npositions: line\nevents: Instructions Cycles Misses WriteBacks\nsummary: ",
    )
}

/// Puts the head of a file behind a text.
fn push_head(alloc: Global, text: &mut Vec<u8>, total: Cost) -> Result<(), AllocError>
    ensures { OnOk result (text.new.items ≡ text.old.items ++ head_text total) }
{
    push_opening(text)?;
    push_cost(alloc, text, total)?;
    text.extend_from_slice(b"\n")
}

/// Puts the end of a file behind a text.
#[tactic(auto, unfolding(crate::specs::Callgrind::total_text))]
fn push_total(alloc: Global, text: &mut Vec<u8>, total: Cost) -> Result<(), AllocError>
    ensures { OnOk result (text.new.items ≡ text.old.items ++ total_text total) }
{
    text.extend_from_slice(b"\ntotals: ")?;
    push_cost(alloc, text, total)?;
    text.extend_from_slice(b"\n")
}

/// A byte of another name, in whose place no number may begin either.
fn name_byte(byte: u8) -> u8
    ensures { result ≡ name_byte byte }
{
    if byte == b'(' { b'_' } else { file_byte(byte) }
}

/// Puts the name of a task or of a function behind a text.
fn push_name(text: &mut Vec<u8>, name: &[u8]) -> Result<(), AllocError>
    ensures { OnOk result (text.new.items ≡ text.old.items ++ name_text name.now) }
{
    'bytes: for byte in name {
        text.push(name_byte(*byte))?;
    }
    Ok(())
}

/// Puts the line of a task behind a text.
#[tactic(auto, unfolding(crate::specs::Callgrind::object_line))]
fn push_object_line(text: &mut Vec<u8>, name: &[u8]) -> Result<(), AllocError>
    ensures { OnOk result (text.new.items ≡ text.old.items ++ object_line name.now) }
{
    text.extend_from_slice(b"\nob=")?;
    push_name(text, name)?;
    text.extend_from_slice(b"\n")
}

/// Puts the line of a file behind a text, with the number by which it is known.
#[tactic(auto, unfolding(crate::specs::Callgrind::file_line))]
fn push_file_line(
    alloc: Global,
    text: &mut Vec<u8>,
    number: u32,
    file: &[u8],
) -> Result<(), AllocError>
    ensures { OnOk result (text.new.items ≡ text.old.items ++ file_line number file.now) }
{
    text.extend_from_slice(b"fl=(")?;
    push_number(alloc, text, number)?;
    text.extend_from_slice(b") ")?;
    push_file(text, file)?;
    text.extend_from_slice(b"\n")
}

/// Puts the line of a function behind a text.
#[tactic(auto, unfolding(crate::specs::Callgrind::function_line))]
fn push_function_line(text: &mut Vec<u8>, name: &[u8]) -> Result<(), AllocError>
    ensures { OnOk result (text.new.items ≡ text.old.items ++ function_line name.now) }
{
    text.extend_from_slice(b"fn=")?;
    push_name(text, name)?;
    text.extend_from_slice(b"\n")
}

/// Puts what a function's costs begin with behind a text: its task, the file of that with the number by which it is known, and its name.
fn push_function_head(
    alloc: Global,
    text: &mut Vec<u8>,
    task: &str,
    file: &str,
    number: u32,
    name: &[u8],
) -> Result<(), AllocError>
    ensures { OnOk result (text.new.items ≡ text.old.items ++ function_head (record { name = task.now; file = file.now }) number name.now) }
{
    push_object_line(text, task.as_bytes())?;
    push_file_line(alloc, text, number, file.as_bytes())?;
    push_function_line(text, name)
}

/// The first line; 0 where there is none.
fn first_line(lines: &[u32]) -> u32
    ensures { result ≡ first_line lines.now }
{
    match lines {
        [line, ..] => *line,
        [] => 0,
    }
}

/// The lines behind the first one.
fn lines_behind(lines: &[u32]) -> &[u32]
    ensures { result.now ≡ lines_behind lines.now }
{
    match lines {
        [_, rest @ ..] => rest,
        [] => lines,
    }
}

/// Puts what was spent in calls at a line behind a text.
fn push_spent_line(
    alloc: Global,
    text: &mut Vec<u8>,
    line: u32,
    cost: WideCost,
) -> Result<(), AllocError>
    ensures { OnOk result (text.new.items ≡ text.old.items ++ spent_line line (narrow cost)) }
{
    let (instructions, cycles) = (cost.instructions, cost.cycles);
    let (misses, backs) = (cost.misses, cost.backs);
    let numbers = format!(in alloc; "{line} {instructions} {cycles} {misses} {backs}\n")?;
    text.extend_from_slice(numbers.as_bytes())
}

/// Puts how often a function was called, and the line at which it begins, behind a text.
fn push_count(alloc: Global, text: &mut Vec<u8>, count: u64, line: u32) -> Result<(), AllocError>
    ensures { OnOk result (text.new.items ≡ text.old.items ++ (codes "\ncalls=" ++ (decimal count ++ (codes " " ++ (decimal line ++ codes "\n"))))) }
{
    let calls = format!(in alloc; "\ncalls={count} {line}\n")?;
    text.extend_from_slice(calls.as_bytes())
}

/// Puts what the costs of calls begin with behind a text: the function that is called, and how often.
#[tactic(auto, unfolding(crate::specs::Callgrind::callee_lines))]
fn push_callee(
    alloc: Global,
    text: &mut Vec<u8>,
    count: u64,
    callee: &Strip,
) -> Result<(), AllocError>
    ensures { OnOk result (text.new.items ≡ text.old.items ++ callee_lines count (strip_of callee.now)) }
{
    text.extend_from_slice(b"cfn=")?;
    push_name(text, callee.name.as_slice())?;
    push_count(alloc, text, count, first_line(callee.lines.as_slice()))
}

/// The n-th strip.
#[tactic(auto, using(crate::proofs::Callees::strip_is))]
fn strip_at(strips: &[Strip], n: usize) -> Option<&Strip>
    ensures some { IfSome result (λ s. slice_get (map strip_of strips.now) n ≡ Some (strip_of s.now)) }
    ensures none { IsNone result → slice_get (map strip_of strips.now) n ≡ None }
{
    strips.get(n)
}

/// The function of this number.
fn callee_of(strips: &[Strip], number: usize) -> Option<&Strip>
    ensures some { IfSome result (λ s. callee_of (map strip_of strips.now) number ≡ Some (strip_of s.now)) }
    ensures none { IsNone result → callee_of (map strip_of strips.now) number ≡ None }
{
    if number == 0 {
        return None;
    }
    strip_at(strips, number - 1)
}

/// The number of the function that a row has called last; 0 where it has called none.
fn callee_at(callees: &[usize], row: usize) -> usize
    ensures { result ≡ slice_index_or callees.now row 0 }
{
    match callees.get(row) {
        Some(callee) => *callee,
        None => 0,
    }
}

/// Puts the calls of a row, whose line is told with how often it was executed, behind a text, if there are some.
fn push_calls(
    alloc: Global,
    text: &mut Vec<u8>,
    strips: &[Strip],
    calls: &Calls,
    row: usize,
    line: u32,
    count: u64,
) -> Result<(), AllocError>
    ensures { OnOk result (text.new.items ≡ text.old.items ++ calls_text line count (calls_at (map strip_of strips.now) calls.now.callees.items (map narrow calls.now.costs.items) row)) }
{
    match callee_of(strips, callee_at(calls.callees.as_slice(), row)) {
        Some(callee) => {
            push_callee(alloc, text, count, callee)?;
            push_spent_line(alloc, text, line, wide_at(calls.costs.as_slice(), row))
        }
        None => Ok(()),
    }
}

/// Puts what was spent at a row, whose line is told, and in its calls behind a text.
fn push_row(
    alloc: Global,
    text: &mut Vec<u8>,
    strips: &[Strip],
    calls: &Calls,
    row: usize,
    line: u32,
    cost: Cost,
) -> Result<(), AllocError>
    ensures { OnOk result (text.new.items ≡ text.old.items ++ row_text (calls_at (map strip_of strips.now) calls.now.callees.items (map narrow calls.now.costs.items) row) line cost) }
{
    push_cost_line(alloc, text, line, cost)?;
    push_calls(alloc, text, strips, calls, row, line, cost.instructions)
}

/// Puts costs at lines, of rows from this one on, behind a text.
fn push_lines(
    alloc: Global,
    text: &mut Vec<u8>,
    strips: &[Strip],
    calls: &Calls,
    row: usize,
    lines: &[u32],
    costs: &[Cost],
) -> Result<(), AllocError>
    requires { row + length costs.now < 2 ^ 64 }
    ensures { OnOk result (text.new.items ≡ text.old.items ++ lines_text (calls_at (map strip_of strips.now) calls.now.callees.items (map narrow calls.now.costs.items)) row lines.now costs.now) }
{
    let mut left = lines;
    let mut at = row;
    'costs: for cost in costs {
        push_row(alloc, text, strips, calls, at, first_line(left), *cost)?;
        left = lines_behind(left);
        at += 1;
    }
    Ok(())
}

/// The name of a task, and the name of its file; nothing where there is no such task.
fn source_names(sources: &[Source], k: u16) -> (&str, &str)
    ensures name { result.0.now ≡ (source_at sources.now k).name }
    ensures file { result.1.now ≡ (source_at sources.now k).file }
{
    match sources.get(usize::from(k)) {
        Some(source) => (source.name.text(), source.file.text()),
        None => ("", ""),
    }
}

/// What a profile tells of.
#[derive(Clone, Copy)]
pub struct Told<'a> {
    pub sources: &'a [Source],
    pub strips: &'a [Strip],
    pub calls: &'a Calls,
}

/// Puts what a strip's costs begin with behind a text.
fn push_strip_head(
    alloc: Global,
    text: &mut Vec<u8>,
    sources: &[Source],
    strip: &Strip,
) -> Result<(), AllocError>
    ensures { OnOk result (text.new.items ≡ text.old.items ++ function_head (source_at sources.now (strip_of strip.now).task) ((strip_of strip.now).task + 1) (strip_of strip.now).name) }
{
    let (task, file) = source_names(sources, strip.task);
    let number = u32::from(strip.task) + 1;
    push_function_head(alloc, text, task, file, number, strip.name.as_slice())
}

/// Puts the costs of the words of a strip, of rows from this one on, behind a text.
fn push_strip(
    alloc: Global,
    text: &mut Vec<u8>,
    told: Told<'_>,
    row: usize,
    strip: &Strip,
    costs: &[Cost],
) -> Result<(), AllocError>
    requires { row + length costs.now < 2 ^ 64 }
    ensures { OnOk result (text.new.items ≡ text.old.items ++ strip_text told.entry.sources.now (calls_at (map strip_of told.entry.strips.now) told.entry.calls.now.callees.items (map narrow told.entry.calls.now.costs.items)) row (strip_of strip.now) costs.now) }
{
    push_strip_head(alloc, text, told.sources, strip)?;
    let lines = strip.lines.as_slice();
    push_lines(alloc, text, told.strips, told.calls, row, lines, costs)
}

/// The first so many costs, as far as they are there.
fn front(costs: &[Cost], count: usize) -> &[Cost]
    ensures { result.now ≡ take count costs.now }
{
    if count < costs.len() {
        &costs[..count]
    } else {
        costs
    }
}

/// The costs behind the first so many.
fn costs_behind(costs: &[Cost], count: usize) -> &[Cost]
    ensures { result.now ≡ drop count costs.now }
{
    if count < costs.len() {
        &costs[count..]
    } else {
        &[]
    }
}

/// Puts the costs of all strips, which stand one behind another in the rows from this one on, behind a text.
fn push_strips(
    alloc: Global,
    text: &mut Vec<u8>,
    told: Told<'_>,
    row: usize,
    costs: &[Cost],
) -> Result<(), AllocError>
    requires fits { row + length costs.now < 2 ^ 64 }
    requires rows { length costs.now ≡ strip_words (map strip_of told.strips.now) }
    ensures { OnOk result (text.new.items ≡ text.old.items ++ strips_text told.entry.sources.now (calls_at (map strip_of told.entry.strips.now) told.entry.calls.now.callees.items (map narrow told.entry.calls.now.costs.items)) row (map strip_of told.entry.strips.now) costs.now) }
{
    let mut left = costs;
    let mut at = row;
    let strips = told.strips;
    'strips: for strip in strips {
        let count = strip.count as usize;
        push_strip(alloc, text, told, at, strip, front(left, count))?;
        left = costs_behind(left, count);
        at += count;
    }
    Ok(())
}

/// Puts what the line of switches begins with behind a text.
#[tactic(auto, unfolding(crate::specs::Callgrind::switch_opening))]
fn push_switch_opening(text: &mut Vec<u8>) -> Result<(), AllocError>
    ensures { OnOk result (text.new.items ≡ text.old.items ++ switch_opening) }
{
    text.extend_from_slice(b"fn=[switch] ")
}

/// Puts the line of the switches to a task behind a text.
#[tactic(auto, unfolding(crate::specs::Callgrind::switch_line))]
fn push_switch_line(text: &mut Vec<u8>, name: &[u8]) -> Result<(), AllocError>
    ensures { OnOk result (text.new.items ≡ text.old.items ++ switch_line name.now) }
{
    push_switch_opening(text)?;
    push_name(text, name)?;
    text.extend_from_slice(b"\n")
}

/// Puts the switches to a task behind a text.
fn push_switch(alloc: Global, text: &mut Vec<u8>, name: &str, cost: Cost) -> Result<(), AllocError>
    ensures { OnOk result (text.new.items ≡ text.old.items ++ switch_text name.now cost) }
{
    push_switch_line(text, name.as_bytes())?;
    push_cost_line(alloc, text, 0, cost)
}

/// The first cost, and those behind it.
fn first_cost(costs: &[Cost]) -> Option<(Cost, &[Cost])>
    ensures some { IfSome result (λ f. costs.now ≡ f.0 ∷ f.1.now) }
    ensures none { IsNone result → costs.now ≡ [] }
{
    match costs {
        [cost, rest @ ..] => Some((*cost, rest)),
        [] => None,
    }
}

/// Puts the switches to tasks behind a text.
fn push_switches(
    alloc: Global,
    text: &mut Vec<u8>,
    sources: &[Source],
    costs: &[Cost],
) -> Result<(), AllocError>
    ensures { OnOk result (text.new.items ≡ text.old.items ++ switches_text sources.now costs.now) }
{
    let mut left = costs;
    'sources: for source in sources {
        let Some((cost, rest)) = first_cost(left) else {
            return Ok(());
        };
        push_switch(alloc, text, source.name.text(), cost)?;
        left = rest;
    }
    Ok(())
}

/// Puts the head of idle time behind a text.
#[tactic(auto, unfolding(crate::specs::Callgrind::machine_head))]
fn push_machine_head(text: &mut Vec<u8>) -> Result<(), AllocError>
    ensures { OnOk result (text.new.items ≡ text.old.items ++ machine_head) }
{
    text.extend_from_slice(b"\nob=[machine]\nfl=(0) ???\nfn=[idle]\n")
}

/// Puts the head of what stands nowhere behind a text.
#[tactic(auto, unfolding(crate::specs::Callgrind::nowhere_head))]
fn push_nowhere_head(text: &mut Vec<u8>) -> Result<(), AllocError>
    ensures { OnOk result (text.new.items ≡ text.old.items ++ nowhere_head) }
{
    text.extend_from_slice(b"fn=[elsewhere]\n")
}

/// Puts what has no line behind a text: idle time, what stands nowhere, and the switches to each task.
fn push_machine(
    alloc: Global,
    text: &mut Vec<u8>,
    sources: &[Source],
    costs: &[Cost],
) -> Result<(), AllocError>
    ensures { OnOk result (text.new.items ≡ text.old.items ++ machine_text sources.now costs.now) }
{
    push_machine_head(text)?;
    push_cost_line(alloc, text, 0, cost_at(costs, 1))?;
    push_nowhere_head(text)?;
    push_cost_line(alloc, text, 0, cost_at(costs, 0))?;
    push_switches(alloc, text, sources, costs_behind(costs, 2))
}

/// A profile of strips of tasks with these sources, with the costs of all rows, the calls of each, and the costs of all together.
///
/// Condition: each row has a cost.
pub fn profile_text(
    alloc: Global,
    told: Told<'_>,
    total: Cost,
    costs: &[Cost],
) -> Result<Vec<u8>, AllocError>
    requires { length costs.now ≡ first_row (length told.sources.now) + strip_words (map strip_of told.strips.now) }
    ensures { IfOk result (λ text. text.items ≡ profile_text told.entry.sources.now (map strip_of told.entry.strips.now) total costs.now
        (calls_at (map strip_of told.entry.strips.now) told.entry.calls.now.callees.items (map narrow told.entry.calls.now.costs.items))) }
{
    let mut text = Vec::new(alloc);
    push_head(alloc, &mut text, total)?;
    push_machine(alloc, &mut text, told.sources, costs)?;
    let tasks = told.sources.len();
    let rows = costs_behind(costs_behind(costs, 2), tasks);
    push_strips(alloc, &mut text, told, 2 + tasks, rows)?;
    push_total(alloc, &mut text, total)?;
    Ok(text)
}
