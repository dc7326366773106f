// The lines of the words of steps.
ghost use Rattle.std.specs.Prelude.{◌≡◌, ◌≤◌, ◌++◌, map, OnOk};
ghost use Rattle.prem_tree.specs.Resolve.ResolvedOf.{term_of};
ghost use Rattle.prem_profile.specs.Lines.Table.{argument_lines, jump_words, target_words};
ghost use Rattle.prem_profile.specs.Lines.Memory.{has_code, lines_at, list_has, list_lines};

use crate::lines::term::{constant_words, push_term, push_words, scale_words};
use prem_plant::Target;
use prem_tree::resolve::{Step, Term};
use std::alloc::AllocError;

/// Whether there is a statement.
#[cycle(code)]
fn has_code(step: &Step) -> bool
    ensures { result ≡ has_code step.now }
{
    match step {
        Step::Block { body } => any_has_code(body.items()),
        Step::SetLocal { .. }
        | Step::SetScalar { .. }
        | Step::SetElement { .. }
        | Step::Output { .. }
        | Step::Input { .. }
        | Step::If { .. }
        | Step::For { .. }
        | Step::While { .. }
        | Step::Call { .. } => true,
    }
}

/// Whether there is a statement among steps.
#[cycle(code)]
fn any_has_code(steps: &[Step]) -> bool
    ensures { result ≡ list_has steps.now }
{
    for step in steps {
        if has_code(step) {
            return true;
        }
    }
    false
}

/// How many jumps go over the other side of a choice.
fn jump_words(other: bool) -> u32
    ensures { result ≡ jump_words other }
{
    if other { 1 } else { 0 }
}

/// How many words store a result.
fn target_words(target: Option<usize>) -> u32
    ensures count { result ≡ target_words target }
    ensures few { result ≤ 1 }
{
    match target {
        Some(_) => 1,
        None => 0,
    }
}

/// Puts the lines of arguments behind others.
fn push_arguments(
    arguments: &[Term],
    target: Target,
    line: u32,
    lines: &mut Vec<u32>,
) -> Result<(), AllocError>
    ensures { OnOk result (lines.new.items ≡ lines.old.items ++ argument_lines target line (map term_of arguments.now)) }
{
    for argument in arguments {
        push_term(argument, target, line, lines)?;
        push_words(lines, line, 1)?;
    }
    Ok(())
}

/// Puts the lines of a step's words behind others.
#[cycle(steps)]
pub fn push_step(step: &Step, target: Target, lines: &mut Vec<u32>) -> Result<(), AllocError>
    ensures { OnOk result (lines.new.items ≡ lines.old.items ++ lines_at target step.now) }
{
    match step {
        Step::Block { body } => push_steps(body.items(), target, lines),
        Step::SetLocal { at, value, .. } => {
            push_term(value, target, at.line, lines)?;
            push_words(lines, at.line, 1)
        }
        Step::SetScalar { at, value, .. } => {
            push_term(value, target, at.line, lines)?;
            push_words(lines, at.line, 3)
        }
        Step::SetElement {
            at,
            ty,
            index,
            value,
            ..
        } => {
            push_term(value, target, at.line, lines)?;
            push_term(index, target, at.line, lines)?;
            push_words(lines, at.line, scale_words(*ty) + 4)
        }
        Step::Output { at, value } => {
            push_term(value, target, at.line, lines)?;
            push_words(lines, at.line, 1)
        }
        Step::Input { at, .. } => push_words(lines, at.line, 2),
        Step::If {
            at,
            condition,
            taken,
            other,
        } => {
            push_term(condition, target, at.line, lines)?;
            push_words(lines, at.line, 2)?;
            push_step(taken, target, lines)?;
            push_words(lines, at.line, jump_words(has_code(other)))?;
            push_step(other, target, lines)
        }
        Step::For {
            at,
            low,
            high,
            body,
            ..
        } => {
            push_term(low, target, at.line, lines)?;
            push_words(lines, at.line, 2)?;
            push_term(high, target, at.line, lines)?;
            push_words(lines, at.line, 2)?;
            push_step(body, target, lines)?;
            push_words(lines, at.line, 4)
        }
        Step::While {
            at,
            turns,
            condition,
            body,
        } => {
            push_words(lines, at.line, constant_words(*turns) + 4)?;
            push_term(condition, target, at.line, lines)?;
            push_words(lines, at.line, 6)?;
            push_step(body, target, lines)?;
            push_words(lines, at.line, 1)
        }
        Step::Call {
            at,
            target: to,
            arguments,
            ..
        } => {
            push_arguments(arguments.items(), target, at.line, lines)?;
            push_words(lines, at.line, 1 + target_words(*to))
        }
    }
}

/// Puts the lines of steps behind others.
#[cycle(steps)]
fn push_steps(steps: &[Step], target: Target, lines: &mut Vec<u32>) -> Result<(), AllocError>
    ensures { OnOk result (lines.new.items ≡ lines.old.items ++ list_lines target steps.now) }
{
    for step in steps {
        push_step(step, target, lines)?;
    }
    Ok(())
}
