// Statements.
#![tactic(auto, using(crate::proofs::Writing::written_append))]

ghost use Rattle.std.specs.Prelude.{◌≡◌, [], ◌∷◌, ◌++◌, OnOk, map};
ghost use Rattle.std.specs.Option.{option_map};
ghost use Rattle.prem_syntax.specs.Name.{name_bytes};
ghost use Rattle.prem_syntax.specs.SyntaxOf.{expression_of, statement_of, statements_of};
ghost use Rattle.prem_text.specs.Lexing.Token.Lexeme.{mark};
ghost use Rattle.prem_text.specs.declared.lexing.token.token.Mark.TheVariants as m;
ghost use Rattle.prem_text.specs.Canonical.Canonical.{argument_lexemes, bound_lexemes, call_lexemes, comparison_sign, expression_lexemes, for_lexemes, if_lexemes, input_lexemes, more_arguments, statement_lexemes, statements_lexemes, step_lexemes, tail_lexemes, target_lexemes, while_lexemes};
ghost use Rattle.prem_print.specs.Written.{written};

use crate::expression::push_expression;
use crate::token::{push_mark, push_name, push_number, push_word};
use prem_syntax::{Expr, Name, Stmt};
use prem_text::lexing::token::{Mark, Word};
use std::alloc::AllocError;

/// The arguments behind the first one.
fn push_more(text: &mut Vec<u8>, rest: &[Expr]) -> Result<(), AllocError>
    ensures { OnOk result (text.new.items ≡ written text.old.items (more_arguments (map expression_of rest.now))) }
{
    for argument in rest {
        push_mark(text, Mark::Comma)?;
        push_expression(text, 1, argument)?;
    }
    Ok(())
}

/// The arguments of a call.
fn push_arguments(text: &mut Vec<u8>, args: &[Expr]) -> Result<(), AllocError>
    ensures { OnOk result (text.new.items ≡ written text.old.items (argument_lexemes (map expression_of args.now))) }
{
    match args {
        [] => Ok(()),
        [first, rest @ ..] => {
            push_expression(text, 1, first)?;
            push_more(text, rest)
        }
    }
}

/// `) ;`
fn push_tail(text: &mut Vec<u8>) -> Result<(), AllocError>
    ensures { OnOk result (text.new.items ≡ written text.old.items tail_lexemes) }
{
    push_mark(text, Mark::CloseParenthesis)?;
    push_mark(text, Mark::Semicolon)
}

/// What is assigned.
fn push_target(text: &mut Vec<u8>, name: &Name, index: &Option<Expr>) -> Result<(), AllocError>
    ensures { OnOk result (text.new.items ≡ written text.old.items (target_lexemes (name_bytes name.now) (option_map expression_of index.now))) }
{
    push_name(text, name)?;
    match index {
        None => Ok(()),
        Some(index) => {
            push_mark(text, Mark::OpenBracket)?;
            push_expression(text, 1, index)?;
            push_mark(text, Mark::CloseBracket)
        }
    }
}

/// A call, up to its arguments.
fn push_callee(text: &mut Vec<u8>, target: &Option<Name>, callee: &Name) -> Result<(), AllocError>
    ensures { OnOk result (text.new.items ≡ written text.old.items (call_lexemes (option_map name_bytes target.now) (name_bytes callee.now))) }
{
    if let Some(target) = target {
        push_name(text, target)?;
        push_mark(text, Mark::Equal)?;
    }
    push_name(text, callee)?;
    push_mark(text, Mark::OpenParenthesis)
}

/// `BOUNDED ( turns ) while ( condition )`
fn push_while(text: &mut Vec<u8>, turns: u32, cond: &Expr) -> Result<(), AllocError>
    ensures { OnOk result (text.new.items ≡ written text.old.items (while_lexemes turns ++ expression_lexemes 1 (expression_of cond.now) ++ mark m.CloseParenthesis ∷ [])) }
{
    push_word(text, Word::Bounded)?;
    push_mark(text, Mark::OpenParenthesis)?;
    push_number(text, turns as u64)?;
    push_mark(text, Mark::CloseParenthesis)?;
    push_word(text, Word::While)?;
    push_mark(text, Mark::OpenParenthesis)?;
    push_expression(text, 1, cond)?;
    push_mark(text, Mark::CloseParenthesis)
}

/// `for ( name =`
fn push_for(text: &mut Vec<u8>, first: &Name) -> Result<(), AllocError>
    ensures { OnOk result (text.new.items ≡ written text.old.items (for_lexemes (name_bytes first.now))) }
{
    push_word(text, Word::For)?;
    push_mark(text, Mark::OpenParenthesis)?;
    push_name(text, first)?;
    push_mark(text, Mark::Equal)
}

/// The mark of a bound.
fn comparison_sign(closed: bool) -> Mark
    ensures { result ≡ comparison_sign closed }
{
    if closed { Mark::LessEqual } else { Mark::Less }
}

/// `; name <` or `; name <=`
fn push_bound(text: &mut Vec<u8>, second: &Name, closed: bool) -> Result<(), AllocError>
    ensures { OnOk result (text.new.items ≡ written text.old.items (bound_lexemes (name_bytes second.now) closed)) }
{
    push_mark(text, Mark::Semicolon)?;
    push_name(text, second)?;
    push_mark(text, comparison_sign(closed))
}

/// `; name = name + step )`
fn push_step(text: &mut Vec<u8>, third: &Name, fourth: &Name, step: u32) -> Result<(), AllocError>
    ensures { OnOk result (text.new.items ≡ written text.old.items (step_lexemes (name_bytes third.now) (name_bytes fourth.now) step)) }
{
    push_mark(text, Mark::Semicolon)?;
    push_name(text, third)?;
    push_mark(text, Mark::Equal)?;
    push_name(text, fourth)?;
    push_mark(text, Mark::Plus)?;
    push_number(text, step as u64)?;
    push_mark(text, Mark::CloseParenthesis)
}

/// `name = in ( ) ;`
fn push_input(text: &mut Vec<u8>, name: &Name) -> Result<(), AllocError>
    ensures { OnOk result (text.new.items ≡ written text.old.items (input_lexemes (name_bytes name.now))) }
{
    push_name(text, name)?;
    push_mark(text, Mark::Equal)?;
    push_word(text, Word::In)?;
    push_mark(text, Mark::OpenParenthesis)?;
    push_tail(text)
}

/// `if ( condition )`
fn push_if(text: &mut Vec<u8>, cond: &Expr) -> Result<(), AllocError>
    ensures { OnOk result (text.new.items ≡ written text.old.items (if_lexemes (expression_of cond.now))) }
{
    push_word(text, Word::If)?;
    push_mark(text, Mark::OpenParenthesis)?;
    push_expression(text, 1, cond)?;
    push_mark(text, Mark::CloseParenthesis)
}

/// `target = value ;`
fn push_assignment(
    text: &mut Vec<u8>,
    name: &Name,
    index: &Option<Expr>,
    value: &Expr,
) -> Result<(), AllocError>
    ensures { OnOk result (text.new.items ≡ written text.old.items (target_lexemes (name_bytes name.now) (option_map expression_of index.now) ++ (mark m.Equal ∷ []) ++ expression_lexemes 1 (expression_of value.now) ++ mark m.Semicolon ∷ [])) }
{
    push_target(text, name, index)?;
    push_mark(text, Mark::Equal)?;
    push_expression(text, 1, value)?;
    push_mark(text, Mark::Semicolon)
}

/// `target = callee ( arguments ) ;`
fn push_call(
    text: &mut Vec<u8>,
    target: &Option<Name>,
    callee: &Name,
    args: &[Expr],
) -> Result<(), AllocError>
    ensures { OnOk result (text.new.items ≡ written text.old.items (call_lexemes (option_map name_bytes target.now) (name_bytes callee.now) ++ argument_lexemes (map expression_of args.now) ++ tail_lexemes)) }
{
    push_callee(text, target, callee)?;
    push_arguments(text, args)?;
    push_tail(text)
}

/// A statement.
#[cycle(statements)]
fn push_statement(text: &mut Vec<u8>, stmt: &Stmt) -> Result<(), AllocError>
    ensures { OnOk result (text.new.items ≡ written text.old.items (statement_lexemes (statement_of stmt.now))) }
{
    match stmt {
        Stmt::Block { body, .. } => push_block(text, body.items()),
        Stmt::If {
            cond,
            taken,
            other,
            ..
        } => {
            push_if(text, cond)?;
            push_statement(text, taken)?;
            match other {
                None => Ok(()),
                Some(other) => {
                    push_word(text, Word::Else)?;
                    push_statement(text, other)
                }
            }
        }
        Stmt::While {
            turns,
            cond,
            body,
            ..
        } => {
            push_while(text, *turns, cond)?;
            push_statement(text, body)
        }
        Stmt::For {
            names,
            low,
            closed,
            high,
            step,
            body,
            ..
        } => {
            push_for(text, &names.first)?;
            push_expression(text, 1, low)?;
            push_bound(text, &names.second, *closed)?;
            push_expression(text, 8, high)?;
            push_step(text, &names.third, &names.fourth, *step)?;
            push_statement(text, body)
        }
        Stmt::Set {
            name,
            index,
            value,
            ..
        } => push_assignment(text, name, index, value),
        Stmt::Output { value, .. } => {
            push_word(text, Word::Out)?;
            push_mark(text, Mark::OpenParenthesis)?;
            push_expression(text, 1, value)?;
            push_tail(text)
        }
        Stmt::Input { name, .. } => push_input(text, name),
        Stmt::Call {
            target,
            callee,
            args,
            ..
        } => push_call(text, target, callee, args.items()),
    }
}

/// Statements in braces.
#[cycle(statements)]
fn push_block(text: &mut Vec<u8>, body: &[Stmt]) -> Result<(), AllocError>
    ensures { OnOk result (text.new.items ≡ written text.old.items ((mark m.OpenBrace ∷ []) ++ statements_lexemes (statements_of body.now) ++ mark m.CloseBrace ∷ [])) }
{
    push_mark(text, Mark::OpenBrace)?;
    push_statements(text, body)?;
    push_mark(text, Mark::CloseBrace)
}

/// Statements, one behind another.
#[cycle(statements)]
pub fn push_statements(text: &mut Vec<u8>, body: &[Stmt]) -> Result<(), AllocError>
    ensures { OnOk result (text.new.items ≡ written text.old.items (statements_lexemes (statements_of body.now))) }
{
    for stmt in body {
        push_statement(text, stmt)?;
    }
    Ok(())
}
