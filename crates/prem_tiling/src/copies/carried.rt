// Locals that carry a value from one turn of a loop into the next.
ghost use Rattle.std.specs.Prelude.{◌≡◌, map, IfOk, OnOk};
ghost use Rattle.prem_syntax.specs.SyntaxOf.{statement_of, statements_of, local_of};
ghost use Rattle.prem_tiling.specs.Shapes.Carried.{names_of, carried_in};
ghost use Rattle.prem_tiling.specs.Copies.StaleOf.{walk_of};
ghost use Rattle.prem_tiling.specs.Copies.Walk.{walked, all_walked, walked_apart, started};

use crate::copies::flags::flag_assigned;
use crate::copies::stale::Stale;
use prem_names::Index;
use prem_syntax::{Local, Stmt};
use std::alloc::{AllocError, Global};

/// The names of locals.
fn names_of<'a>(alloc: Global, locals: &'a [Local]) -> Result<Index<'a>, AllocError>
    ensures { IfOk result (λ names. names ≡ names_of (map local_of locals.now)) }
{
    let mut names = Index::new(alloc);
    for local in locals {
        names.push(local.name.bytes())?;
    }
    Ok(names)
}

/// Walks through a statement: notes the first read of a stale local, and the locals that it surely assigns.
#[cycle(walking)]
fn walk(alloc: Global, names: &Index, stale: &mut Stale, stmt: &Stmt) -> Result<(), AllocError>
    ensures { OnOk result (walk_of stale.new ≡ walked names.now (walk_of stale.old) (statement_of stmt.now)) }
{
    match stmt {
        Stmt::Block { body, .. } => walk_all(alloc, names, stale, body.items()),
        Stmt::If {
            cond,
            taken,
            other,
            ..
        } => {
            stale.read(names, cond);
            match other {
                Some(other) => {
                    let mark = stale.mark();
                    walk(alloc, names, stale, taken)?;
                    let first = stale.take_back(alloc, mark)?;
                    walk(alloc, names, stale, other)?;
                    stale.settle_both(alloc, mark, &first)
                }
                None => walk_apart(alloc, names, stale, taken),
            }
        }
        Stmt::While { cond, body, .. } => {
            stale.read(names, cond);
            walk_apart(alloc, names, stale, body)
        }
        Stmt::For {
            names: of_loop,
            low,
            high,
            body,
            ..
        } => {
            stale.read(names, low);
            stale.settle(names.find(of_loop.first.bytes()))?;
            stale.read(names, high);
            walk_apart(alloc, names, stale, body)
        }
        Stmt::Set {
            name,
            index,
            value,
            ..
        } => {
            stale.read_option(names, index);
            stale.read(names, value);
            stale.settle_plain(names, name, index)
        }
        Stmt::Output { value, .. } => {
            stale.read(names, value);
            Ok(())
        }
        Stmt::Input { name, .. } => stale.settle(names.find(name.bytes())),
        Stmt::Call { target, args, .. } => {
            stale.read_all(names, args.items());
            stale.settle_target(names, target)
        }
    }
}

/// The same for a statement that may not be reached: what it assigns is stale again behind it.
#[cycle(walking)]
fn walk_apart(
    alloc: Global,
    names: &Index,
    stale: &mut Stale,
    stmt: &Stmt,
) -> Result<(), AllocError>
    ensures { OnOk result (walk_of stale.new ≡ walked_apart names.now (walk_of stale.old) (statement_of stmt.now)) }
{
    let mark = stale.mark();
    walk(alloc, names, stale, stmt)?;
    stale.undo(mark);
    Ok(())
}

#[cycle(walking)]
fn walk_all(
    alloc: Global,
    names: &Index,
    stale: &mut Stale,
    stmts: &[Stmt],
) -> Result<(), AllocError>
    ensures { OnOk result (walk_of stale.new ≡ all_walked names.now (walk_of stale.old) (statements_of stmts.now)) }
{
    'stmts: for stmt in stmts {
        walk(alloc, names, stale, stmt)?;
    }
    Ok(())
}

/// The line of the first read of a local that the body of a loop assigns, where no local is flagged before.
fn carried_by(
    alloc: Global,
    names: &Index,
    stale: &mut Stale,
    body: &Stmt,
) -> Result<Option<u32>, AllocError>
    ensures { IfOk result (λ line. line ≡ (walked names.now (started names.now (walk_of stale.old) (statement_of body.now)) (statement_of body.now)).line) }
{
    flag_assigned(names, &mut stale.flags, body);
    walk(alloc, names, stale, body)?;
    Ok(stale.line)
}

/// The line of the first read of a carried local in the body of a loop, where a local is carried.
pub fn carried_in(alloc: Global, locals: &[Local], body: &Stmt) -> Result<Option<u32>, AllocError>
    ensures { IfOk result (λ line. line ≡ carried_in (names_of (map local_of locals.now)) (statement_of body.now)) }
{
    let names = names_of(alloc, locals)?;
    let flags = vec![in alloc; false; locals.len()]?;
    let mut stale = Stale {
        flags,
        trail: Vec::new(alloc),
        line: None,
    };
    carried_by(alloc, &names, &mut stale, body)
}
