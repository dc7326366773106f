// Items.
#![tactic(auto, using(crate::proofs::Writing::written_append))]

ghost use Rattle.std.specs.Prelude.{◌≡◌, Some, OnOk, map};
ghost use Rattle.std.specs.Option.{option_map};
ghost use Rattle.prem_syntax.specs.Name.{name_bytes};
ghost use Rattle.prem_syntax.specs.SyntaxOf.{expression_of, parameter_of, local_of, region_of, mark_of, initial_of, global_of, function_of, item_of};
ghost use Rattle.prem_text.specs.Canonical.Canonical.{constants_lexemes, declaration_lexemes, function_lexemes, global_lexemes, initial_lexemes, item_lexemes, length_lexemes, local_lexemes, locals_lexemes, mark_lexemes, more_constants, more_parameters, parameter_lexemes, parameters_lexemes, program_lexemes, range_lexemes, region_lexemes, regions_lexemes, result_lexemes, type_lexemes};
ghost use Rattle.prem_print.specs.Written.{written};

use crate::expression::{push_constant, push_expression};
use crate::statement::push_statements;
use crate::token::{push_mark, push_name, push_number, push_word};
use prem_syntax::{Expr, Function, Global, Initial, Item, Local, Name, Param, Region, Ty};
use prem_text::lexing::token::{Mark, Word};
use std::alloc::AllocError;

/// A type; `unsigned` stands without `int`.
fn push_type(text: &mut Vec<u8>, ty: Ty) -> Result<(), AllocError>
    ensures { OnOk result (text.new.items ≡ written text.old.items (type_lexemes ty)) }
{
    match ty {
        Ty::Void => push_word(text, Word::Void),
        Ty::Int => push_word(text, Word::Int),
        Ty::Unsigned => push_word(text, Word::Unsigned),
        Ty::Short => push_word(text, Word::Short),
        Ty::Ushort => {
            push_word(text, Word::Unsigned)?;
            push_word(text, Word::Short)
        }
        Ty::Schar => {
            push_word(text, Word::Signed)?;
            push_word(text, Word::Char)
        }
        Ty::Uchar => {
            push_word(text, Word::Unsigned)?;
            push_word(text, Word::Char)
        }
    }
}

/// A type and a name.
fn push_declaration(text: &mut Vec<u8>, ty: Ty, name: &Name) -> Result<(), AllocError>
    ensures { OnOk result (text.new.items ≡ written text.old.items (declaration_lexemes ty (name_bytes name.now))) }
{
    push_type(text, ty)?;
    push_name(text, name)
}

/// The constants behind the first one.
fn push_more_constants(text: &mut Vec<u8>, rest: &[i64]) -> Result<(), AllocError>
    ensures { OnOk result (text.new.items ≡ written text.old.items (more_constants rest.now)) }
{
    for value in rest {
        push_mark(text, Mark::Comma)?;
        push_constant(text, *value)?;
    }
    Ok(())
}

/// The constants of a list.
fn push_constants(text: &mut Vec<u8>, values: &[i64]) -> Result<(), AllocError>
    ensures { OnOk result (text.new.items ≡ written text.old.items (constants_lexemes values.now)) }
{
    match values {
        [] => Ok(()),
        [first, rest @ ..] => {
            push_constant(text, *first)?;
            push_more_constants(text, rest)
        }
    }
}

/// A length, where there is one.
fn push_length(text: &mut Vec<u8>, len: Option<u32>) -> Result<(), AllocError>
    ensures { OnOk result (text.new.items ≡ written text.old.items (length_lexemes len)) }
{
    match len {
        None => Ok(()),
        Some(n) => {
            push_mark(text, Mark::OpenBracket)?;
            push_number(text, n as u64)?;
            push_mark(text, Mark::CloseBracket)
        }
    }
}

/// An initial value.
fn push_initial(text: &mut Vec<u8>, initial: &Initial) -> Result<(), AllocError>
    ensures { OnOk result (text.new.items ≡ written text.old.items (initial_lexemes (initial_of initial.now))) }
{
    match initial {
        Initial::Absent => Ok(()),
        Initial::One { value } => {
            push_mark(text, Mark::Equal)?;
            push_constant(text, *value)
        }
        Initial::Many { values } => {
            push_mark(text, Mark::Equal)?;
            push_mark(text, Mark::OpenBrace)?;
            push_constants(text, values.items())?;
            push_mark(text, Mark::CloseBrace)
        }
    }
}

/// A global.
fn push_global(text: &mut Vec<u8>, global: &Global) -> Result<(), AllocError>
    ensures { OnOk result (text.new.items ≡ written text.old.items (global_lexemes (global_of global.now))) }
{
    push_declaration(text, global.ty, &global.name)?;
    push_length(text, global.len)?;
    push_initial(text, &global.initial)?;
    push_mark(text, Mark::Semicolon)
}

/// A region.
fn push_region(text: &mut Vec<u8>, region: &Region) -> Result<(), AllocError>
    ensures { OnOk result (text.new.items ≡ written text.old.items (region_lexemes (region_of region.now))) }
{
    push_word(text, Word::Region)?;
    push_mark(text, Mark::OpenParenthesis)?;
    push_name(text, &region.name)?;
    push_mark(text, Mark::Comma)?;
    push_number(text, region.low as u64)?;
    push_mark(text, Mark::Comma)?;
    push_number(text, region.high as u64)?;
    push_mark(text, Mark::CloseParenthesis)
}

/// Regions.
fn push_regions(text: &mut Vec<u8>, regions: &[Region]) -> Result<(), AllocError>
    ensures { OnOk result (text.new.items ≡ written text.old.items (regions_lexemes (map region_of regions.now))) }
{
    for region in regions {
        push_region(text, region)?;
    }
    Ok(())
}

/// A mark with its regions, where there is one.
fn push_marked(text: &mut Vec<u8>, marked: &Option<prem_syntax::Mark>) -> Result<(), AllocError>
    ensures { OnOk result (text.new.items ≡ written text.old.items (mark_lexemes (option_map mark_of marked.now))) }
{
    match marked {
        None => Ok(()),
        Some(marked) => {
            push_word(text, Word::Predictable)?;
            push_mark(text, Mark::OpenParenthesis)?;
            push_number(text, marked.stated as u64)?;
            push_mark(text, Mark::CloseParenthesis)?;
            push_regions(text, marked.regions.items())
        }
    }
}

/// `RANGE ( low , high )`
fn push_bounds(text: &mut Vec<u8>, low: i64, high: i64) -> Result<(), AllocError>
    ensures { OnOk result (text.new.items ≡ written text.old.items (range_lexemes (Some (low, high)))) }
{
    push_word(text, Word::Range)?;
    push_mark(text, Mark::OpenParenthesis)?;
    push_constant(text, low)?;
    push_mark(text, Mark::Comma)?;
    push_constant(text, high)?;
    push_mark(text, Mark::CloseParenthesis)
}

/// The range of a parameter, where there is one.
fn push_range(text: &mut Vec<u8>, range: Option<(i64, i64)>) -> Result<(), AllocError>
    ensures { OnOk result (text.new.items ≡ written text.old.items (range_lexemes range)) }
{
    match range {
        None => Ok(()),
        Some(bounds) => push_bounds(text, bounds.0, bounds.1),
    }
}

/// A parameter.
fn push_parameter(text: &mut Vec<u8>, parameter: &Param) -> Result<(), AllocError>
    ensures { OnOk result (text.new.items ≡ written text.old.items (parameter_lexemes (parameter_of parameter.now))) }
{
    push_declaration(text, parameter.ty, &parameter.name)?;
    push_range(text, parameter.range)
}

/// The parameters behind the first one.
fn push_more_parameters(text: &mut Vec<u8>, rest: &[Param]) -> Result<(), AllocError>
    ensures { OnOk result (text.new.items ≡ written text.old.items (more_parameters (map parameter_of rest.now))) }
{
    for parameter in rest {
        push_mark(text, Mark::Comma)?;
        push_parameter(text, parameter)?;
    }
    Ok(())
}

/// Parameters, or `void`.
fn push_parameters(text: &mut Vec<u8>, params: &[Param]) -> Result<(), AllocError>
    ensures { OnOk result (text.new.items ≡ written text.old.items (parameters_lexemes (map parameter_of params.now))) }
{
    match params {
        [] => push_word(text, Word::Void),
        [first, rest @ ..] => {
            push_parameter(text, first)?;
            push_more_parameters(text, rest)
        }
    }
}

/// A local.
fn push_local(text: &mut Vec<u8>, local: &Local) -> Result<(), AllocError>
    ensures { OnOk result (text.new.items ≡ written text.old.items (local_lexemes (local_of local.now))) }
{
    push_declaration(text, local.ty, &local.name)?;
    push_mark(text, Mark::Equal)?;
    push_expression(text, 1, &local.value)?;
    push_mark(text, Mark::Semicolon)
}

/// Locals.
fn push_locals(text: &mut Vec<u8>, locals: &[Local]) -> Result<(), AllocError>
    ensures { OnOk result (text.new.items ≡ written text.old.items (locals_lexemes (map local_of locals.now))) }
{
    for local in locals {
        push_local(text, local)?;
    }
    Ok(())
}

/// A result, where there is one.
fn push_result(text: &mut Vec<u8>, returned: &Option<Expr>) -> Result<(), AllocError>
    ensures { OnOk result (text.new.items ≡ written text.old.items (result_lexemes (option_map expression_of returned.now))) }
{
    match returned {
        None => Ok(()),
        Some(value) => {
            push_word(text, Word::Return)?;
            push_expression(text, 1, value)?;
            push_mark(text, Mark::Semicolon)
        }
    }
}

/// A function.
fn push_function(text: &mut Vec<u8>, function: &Function) -> Result<(), AllocError>
    ensures { OnOk result (text.new.items ≡ written text.old.items (function_lexemes (function_of function.now))) }
{
    push_marked(text, &function.mark)?;
    push_declaration(text, function.ty, &function.name)?;
    push_mark(text, Mark::OpenParenthesis)?;
    push_parameters(text, function.params.items())?;
    push_mark(text, Mark::CloseParenthesis)?;
    push_mark(text, Mark::OpenBrace)?;
    push_locals(text, function.locals.items())?;
    push_statements(text, function.body.items())?;
    push_result(text, &function.result)?;
    push_mark(text, Mark::CloseBrace)
}

/// An item.
fn push_item(text: &mut Vec<u8>, item: &Item) -> Result<(), AllocError>
    ensures { OnOk result (text.new.items ≡ written text.old.items (item_lexemes (item_of item.now))) }
{
    match item {
        Item::Global(global) => push_global(text, global),
        Item::Function(function) => push_function(text, function),
    }
}

/// Items.
pub fn push_items(text: &mut Vec<u8>, items: &[Item]) -> Result<(), AllocError>
    ensures { OnOk result (text.new.items ≡ written text.old.items (program_lexemes (map item_of items.now))) }
{
    for item in items {
        push_item(text, item)?;
    }
    Ok(())
}
