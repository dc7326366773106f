// The lines of the words of functions.
ghost use Rattle.std.specs.Prelude.{◌≡◌, ◌<◌, [], ◌∷◌, ◌++◌, map, length, IfOk, OnOk, IfSome, IsNone};
ghost use Rattle.std.specs.Option.{option_map};
ghost use Rattle.prem_syntax.specs.SyntaxOf.{local_of};
ghost use Rattle.prem_tree.specs.Resolve.ResolvedOf.{term_of};
ghost use Rattle.prem_layout.specs.Template.Limits.{first_place};
ghost use Rattle.prem_profile.specs.Lines.Table.{local_line, local_lines, locals_behind, result_lines};
ghost use Rattle.prem_profile.specs.Lines.Memory.{routine_lines};

use crate::lines::step::push_step;
use crate::lines::term::{push_term, push_words};
use prem_plant::Target;
use prem_syntax::{Local, Place};
use prem_tree::resolve::{Routine, Term};
use std::alloc::{AllocError, Global};

/// The first value, and those behind it.
fn first_value(values: &[Term]) -> Option<(&Term, &[Term])>
    ensures some { IfSome result (λ f. values.now ≡ f.0.now ∷ f.1.now) }
    ensures none { IsNone result → values.now ≡ [] }
    ensures fewer { IfSome result (λ f. length f.1.now < length values.now) }
{
    match values {
        [value, rest @ ..] => Some((value, rest)),
        [] => None,
    }
}

/// The line of the first local, or another one where there is none.
fn local_line(line: u32, locals: &[Local]) -> u32
    ensures { result ≡ local_line line (map local_of locals.now) }
{
    match locals {
        [local, ..] => local.at.line,
        [] => line,
    }
}

/// The locals behind the first one.
fn locals_behind(locals: &[Local]) -> &[Local]
    ensures { map local_of result.now ≡ locals_behind (map local_of locals.now) }
{
    match locals {
        [_, rest @ ..] => rest,
        [] => locals,
    }
}

/// Puts the lines of the initialisers of locals behind others.
fn push_locals(
    locals: &[Local],
    values: &[Term],
    target: Target,
    line: u32,
    lines: &mut Vec<u32>,
) -> Result<(), AllocError>
    ensures { OnOk result (lines.new.items ≡ lines.old.items ++ local_lines target line (map local_of locals.now) (map term_of values.now)) }
{
    let mut left = locals;
    let mut rest = values;
    'values: while let Some((value, behind)) = first_value(rest) {
        let at = local_line(line, left);
        push_term(value, target, at, lines)?;
        push_words(lines, at, 1)?;
        left = locals_behind(left);
        rest = behind;
    }
    Ok(())
}

/// The first place of those in a term that begin into its register.
fn first_place(term: &Term) -> Place
    ensures { result ≡ first_place (term_of term.now) }
{
    match term {
        Term::Binary { operands, .. } => first_place(&operands.left),
        Term::Constant { at, .. }
        | Term::Local { at, .. }
        | Term::Scalar { at, .. }
        | Term::Element { at, .. }
        | Term::Unary { at, .. } => *at,
    }
}

/// Puts the lines of a result behind others.
fn push_result(value: &Option<Term>, target: Target, lines: &mut Vec<u32>) -> Result<(), AllocError>
    ensures { OnOk result (lines.new.items ≡ lines.old.items ++ result_lines target (option_map term_of value.now)) }
{
    match value {
        Some(value) => push_term(value, target, first_place(value).line, lines),
        None => Ok(()),
    }
}

/// The line of each word of a function's code.
pub fn routine_lines(
    alloc: Global,
    target: Target,
    routine: &Routine<'_>,
) -> Result<Vec<u32>, AllocError>
    ensures { IfOk result (λ lines. lines.items ≡ routine_lines target routine.now) }
{
    let mut lines = Vec::new(alloc);
    let line = routine.text.at.line;
    push_words(&mut lines, line, 2)?;
    let locals = routine.text.locals.items();
    push_locals(locals, routine.locals.items(), target, line, &mut lines)?;
    push_step(&routine.body, target, &mut lines)?;
    push_result(&routine.result, target, &mut lines)?;
    push_words(&mut lines, line, 3)?;
    Ok(lines)
}
