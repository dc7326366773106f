// Copies of statements, in which calls of a function are calls of its tiles.
ghost use Rattle.std.specs.Prelude.{◌≡◌, [], map, None, IfOk};
ghost use Rattle.std.specs.Option.{option_map};
ghost use Rattle.prem_list.specs.Sequence.{items_of};
ghost use Rattle.prem_syntax.specs.Name.{name_bytes};
ghost use Rattle.prem_syntax.specs.Syntax.{block, call, no_statements};
ghost use Rattle.prem_syntax.specs.SyntaxOf.{expression_of, statement_of, statements_of};
ghost use Rattle.prem_tiling.specs.Copies.Copied.{calls_before, with_calls, all_with_calls};

use crate::copies::copy::{copy_expr, copy_exprs, copy_loop_names, copy_option, copy_target};
use prem_list::Sequence;
use prem_syntax::{Expr, Name, Place, Stmt, copy_name};
use std::alloc::{AllocError, Global};

fn call_of(alloc: Global, at: Place, callee: &Name) -> Result<Stmt, AllocError>
    ensures { IfOk result (λ s. statement_of s ≡ call at None (name_bytes callee.now) []) }
{
    Ok(Stmt::Call {
        at,
        target: None,
        callee: copy_name(alloc, callee)?,
        args: Sequence::new(alloc),
    })
}

fn calls_of(alloc: Global, at: Place, tiles: &[Name]) -> Result<Sequence<Stmt>, AllocError>
    ensures { IfOk result (λ calls. statements_of (items_of calls) ≡ calls_before at (map name_bytes tiles.now) no_statements) }
{
    let mut calls = Sequence::new(alloc);
    'tiles: for tile in tiles {
        calls.push(call_of(alloc, at, tile)?)?;
    }
    Ok(calls)
}

fn block_of(at: Place, body: Sequence<Stmt>) -> Stmt
    ensures { statement_of result ≡ block at (statements_of (items_of body)) }
{
    Stmt::Block { at, body }
}

/// A call, or a block that calls all tiles where it calls the function.
fn copy_call(
    alloc: Global,
    name: &Name,
    tiles: &[Name],
    at: Place,
    target: &Option<Name>,
    callee: &Name,
    args: &[Expr],
) -> Result<Stmt, AllocError>
    ensures { IfOk result (λ copy. statement_of copy ≡ with_calls (name_bytes name.now) (map name_bytes tiles.now) (call at (option_map name_bytes target.now) (name_bytes callee.now) (map expression_of args.now))) }
{
    if callee.bytes() == name.bytes() {
        return Ok(block_of(at, calls_of(alloc, at, tiles)?));
    }
    let target = copy_target(alloc, target)?;
    let callee = copy_name(alloc, callee)?;
    Ok(Stmt::Call {
        at,
        target,
        callee,
        args: copy_exprs(alloc, args)?,
    })
}

/// A copy of a statement, in which each call of the function is a block that calls all tiles.
#[cycle(copying)]
pub fn copy_stmt(
    alloc: Global,
    name: &Name,
    tiles: &[Name],
    stmt: &Stmt,
) -> Result<Stmt, AllocError>
    ensures { IfOk result (λ copy. statement_of copy ≡ with_calls (name_bytes name.now) (map name_bytes tiles.now) (statement_of stmt.now)) }
{
    match stmt {
        Stmt::Block { at, body } => {
            let body = copy_stmts(alloc, name, tiles, body.items())?;
            Ok(block_of(*at, body))
        }
        Stmt::If {
            at,
            cond,
            taken,
            other,
        } => {
            let cond = copy_expr(alloc, cond)?;
            let taken = copy_boxed(alloc, name, tiles, taken)?;
            let other = match other {
                Some(other) => Some(copy_boxed(alloc, name, tiles, other)?),
                None => None,
            };
            Ok(Stmt::If {
                at: *at,
                cond,
                taken,
                other,
            })
        }
        Stmt::While {
            at,
            turns,
            cond,
            body,
        } => {
            let cond = copy_expr(alloc, cond)?;
            let body = copy_boxed(alloc, name, tiles, body)?;
            Ok(Stmt::While {
                at: *at,
                turns: *turns,
                cond,
                body,
            })
        }
        Stmt::For {
            at,
            names,
            low,
            closed,
            high,
            step,
            body,
        } => {
            let names = copy_loop_names(alloc, names)?;
            let low = copy_expr(alloc, low)?;
            let high = copy_expr(alloc, high)?;
            let body = copy_boxed(alloc, name, tiles, body)?;
            Ok(Stmt::For {
                at: *at,
                names,
                low,
                closed: *closed,
                high,
                step: *step,
                body,
            })
        }
        Stmt::Set {
            at,
            name,
            index,
            value,
        } => {
            let name = copy_name(alloc, name)?;
            let index = copy_option(alloc, index)?;
            let value = copy_expr(alloc, value)?;
            Ok(Stmt::Set {
                at: *at,
                name,
                index,
                value,
            })
        }
        Stmt::Output { at, value } => Ok(Stmt::Output {
            at: *at,
            value: copy_expr(alloc, value)?,
        }),
        Stmt::Input { at, name } => Ok(Stmt::Input {
            at: *at,
            name: copy_name(alloc, name)?,
        }),
        Stmt::Call {
            at,
            target,
            callee,
            args,
        } => copy_call(alloc, name, tiles, *at, target, callee, args.items()),
    }
}

/// The same in a box.
#[cycle(copying)]
pub fn copy_boxed(
    alloc: Global,
    name: &Name,
    tiles: &[Name],
    stmt: &Stmt,
) -> Result<Box<Stmt>, AllocError>
    ensures { IfOk result (λ copy. statement_of copy.value ≡ with_calls (name_bytes name.now) (map name_bytes tiles.now) (statement_of stmt.now)) }
{
    Ok(Box::new(alloc, copy_stmt(alloc, name, tiles, stmt)?)?)
}

/// Copies of statements, in order.
#[cycle(copying)]
pub fn copy_stmts(
    alloc: Global,
    name: &Name,
    tiles: &[Name],
    stmts: &[Stmt],
) -> Result<Sequence<Stmt>, AllocError>
    ensures { IfOk result (λ copies. statements_of (items_of copies) ≡ all_with_calls (name_bytes name.now) (map name_bytes tiles.now) (statements_of stmts.now)) }
{
    let mut copies = Sequence::new(alloc);
    'stmts: for stmt in stmts {
        copies.push(copy_stmt(alloc, name, tiles, stmt)?)?;
    }
    Ok(copies)
}
