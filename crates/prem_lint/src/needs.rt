// The least lengths of all marked functions, where one is too short.
ghost use Rattle.std.specs.Prelude.{◌≡◌, ◌++◌, OnOk, map};
ghost use Rattle.std.specs.List.{flat_map};
ghost use Rattle.prem_syntax.specs.SyntaxOf.{function_of, program_of};
ghost use Rattle.prem_place.specs.Verdict.Told.{numbered};
ghost use Rattle.prem_tasks.specs.SetOf.{set_of};
ghost use Rattle.prem_tasks.specs.Told.{told_of};
ghost use Rattle.prem_stages.specs.Coded.{AreFormed};
ghost use Rattle.prem_stages.specs.Stages.{checked_text};
ghost use Rattle.prem_compile.specs.Bounding.{AreBounds};
ghost use Rattle.prem_lint.specs.Needs.{is_length, need_line, need_text, needs_from, needs_text, source_name, task_needs};

use crate::put::{put_bytes, put_head, put_name, put_number};
use crate::spot::Spot;
use prem_compile::IntervalFact;
use prem_compile::placed_stages::TaskBounds;
use prem_compile::telling::told_bounds;
use prem_plant::Label;
use prem_syntax::{Function, Program};
use prem_tasks::{Rule, TaskSet};
use prem_tree::Checked;
use prem_tree::resolve::functions_of;
use std::alloc::{AllocError, Global};

/// The least length of a function.
fn put_need(
    alloc: Global,
    text: &mut Vec<u8>,
    file: &str,
    f: &Function,
    bound: u64,
) -> Result<(), AllocError>
    ensures { OnOk result (text.new.items ≡ text.old.items ++ need_line file.now (function_of f.now) bound) }
{
    put_head(alloc, text, file, Spot::Line(f.at.line as usize))?;
    put_bytes(text, b"note: ")?;
    put_name(text, &f.name)?;
    put_bytes(text, b" needs at least ")?;
    put_number(alloc, text, bound)?;
    put_bytes(text, b" cycles\n")
}

/// The least length of a marked function, where it is one of the n-th task, which has these functions.
fn put_fact(
    alloc: Global,
    text: &mut Vec<u8>,
    file: &str,
    n: usize,
    functions: &[&Function],
    fact: &IntervalFact,
) -> Result<(), AllocError>
    ensures { OnOk result (text.new.items ≡ text.old.items ++ need_text file.now n (map (λ f. function_of f.now) functions.now) (numbered fact.now)) }
{
    if usize::from(fact.task) != n {
        return Ok(());
    }
    match functions.get(usize::from(fact.function)) {
        Some(f) => put_need(alloc, text, file, *f, fact.bound),
        None => Ok(()),
    }
}

fn put_facts(
    alloc: Global,
    text: &mut Vec<u8>,
    file: &str,
    n: usize,
    functions: &[&Function],
    facts: &[IntervalFact],
) -> Result<(), AllocError>
    ensures { OnOk result (text.new.items ≡ text.old.items ++ flat_map (need_text file.now n (map (λ f. function_of f.now) functions.now)) (map numbered facts.now)) }
{
    for fact in facts {
        put_fact(alloc, text, file, n, functions, fact)?;
    }
    Ok(())
}

/// The least lengths of the marked functions of the n-th task, which has this program.
fn put_task_needs(
    alloc: Global,
    text: &mut Vec<u8>,
    file: &str,
    n: usize,
    facts: &[IntervalFact],
    program: &Program,
) -> Result<(), AllocError>
    ensures { OnOk result (text.new.items ≡ text.old.items ++ task_needs file.now n (map numbered facts.now) (program_of program.now)) }
{
    let functions = functions_of(alloc, program.items.items())?;
    put_facts(alloc, text, file, n, &functions, facts)
}

/// The name of the n-th task's source.
pub(crate) fn source_name(sources: &[Label], n: usize) -> &str
    ensures { result.now ≡ source_name sources.now n }
{
    match sources.get(n) {
        Some(name) => name.text(),
        None => "",
    }
}

/// The least lengths of the marked functions of all tasks, which have these programs.
fn put_all_needs(
    alloc: Global,
    text: &mut Vec<u8>,
    facts: &[IntervalFact],
    sources: &[Label],
    programs: &[Checked],
) -> Result<(), AllocError>
    ensures { OnOk result (text.new.items ≡ text.old.items ++ needs_from 0 (map numbered facts.now) sources.now (map checked_text programs.now)) }
{
    for n in 0..programs.len() {
        let file = source_name(sources, n);
        put_task_needs(alloc, text, file, n, facts, programs[n].program())?;
    }
    Ok(())
}

/// Whether the rule is that on stated lengths.
fn is_length(rule: &Rule) -> bool
    ensures { result ≡ is_length (told_of rule.now) }
{
    matches!(rule, Rule::Length { .. })
}

/// Where a stated length is too short, the least length of each marked function of the set, which has these programs and bounds.
#[tactic(auto, unfolding(crate::specs::Needs::needs_text))]
pub(crate) fn put_needs(
    alloc: Global,
    text: &mut Vec<u8>,
    sources: &[Label],
    set: &TaskSet,
    programs: &[Checked],
    bounds: Vec<TaskBounds>,
    rule: &Rule,
) -> Result<(), AllocError>
    requires programs { AreFormed (set_of set.now) programs.now }
    requires bounds { AreBounds (set_of set.now) bounds.items }
    ensures { OnOk result (text.new.items ≡ text.old.items ++ needs_text sources.now (set_of set.now) (told_of rule.now)) }
{
    if !is_length(rule) {
        return Ok(());
    }
    let _plant = set.plant();
    let told = told_bounds(alloc, bounds)?;
    put_all_needs(alloc, text, told.intervals.items(), sources, programs)
}
