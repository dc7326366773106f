// The form of counting loops.
ghost use Rattle.std.specs.Prelude.{◌≡◌};
ghost use Rattle.std.specs.Option.{option_map};
ghost use Rattle.prem_syntax.specs.Name.{name_bytes};
ghost use Rattle.prem_syntax.specs.SyntaxOf.{expression_of, loop_names_of, statement_of, statements_of};
ghost use Rattle.prem_syntax.specs.Breaches.{is_int_local, same_name, is_name, assigns, assigns_within, is_int, is_between, is_loop};
ghost use Rattle.prem_names.specs.Scopes.{scope_of};

use crate::kinds::kind_of;
use prem_syntax::{Expr, ForNames, Kind, Name, Stmt, Ty};
use prem_tree::resolve::{Meaning, Names};

fn is_int_local(meaning: Meaning) -> bool
    ensures { result ≡ is_int_local meaning }
{
    match meaning {
        Meaning::Local { ty, .. } => matches!(ty, Ty::Int),
        _ => false,
    }
}

fn is_int(kind: Kind) -> bool
    ensures { result ≡ is_int kind }
{
    matches!(kind, Kind::Int)
}

/// Whether a number lies between two others, both among them.
pub fn is_between(low: u32, high: u32, n: u32) -> bool
    ensures { result ≡ is_between low high n }
{
    low <= n && n <= high
}

fn same_name(names: &ForNames) -> bool
    ensures { result ≡ same_name (loop_names_of names.now) }
{
    let first = names.first.bytes();
    names.second.bytes() == first && names.third.bytes() == first && names.fourth.bytes() == first
}

fn is_name(name: &Name, other: &Option<Name>) -> bool
    ensures { result ≡ is_name (name_bytes name.now) (option_map name_bytes other.now) }
{
    match other {
        Some(other) => other.bytes() == name.bytes(),
        None => false,
    }
}

/// Whether a statement assigns a local: an element of an array is none.
#[cycle(assigning)]
fn assigns(name: &Name, stmt: &Stmt) -> bool
    ensures { result ≡ assigns (name_bytes name.now) (statement_of stmt.now) }
{
    match stmt {
        Stmt::Block { body, .. } => assigns_within(name, body.items()),
        Stmt::If { taken, other, .. } => {
            assigns(name, taken)
                || match other {
                    Some(other) => assigns(name, other),
                    None => false,
                }
        }
        Stmt::While { body, .. } => assigns(name, body),
        Stmt::For { names, body, .. } => {
            names.first.bytes() == name.bytes() || assigns(name, body)
        }
        Stmt::Set {
            name: other,
            index,
            ..
        } => index.is_none() && other.bytes() == name.bytes(),
        Stmt::Output { .. } => false,
        Stmt::Input { name: other, .. } => other.bytes() == name.bytes(),
        Stmt::Call { target, .. } => is_name(name, target),
    }
}

#[cycle(assigning)]
fn assigns_within(name: &Name, stmts: &[Stmt]) -> bool
    ensures { result ≡ assigns_within (name_bytes name.now) (statements_of stmts.now) }
{
    for stmt in stmts {
        if assigns(name, stmt) {
            return true;
        }
    }
    false
}

/// Whether a counting loop has its form: one int local that the body leaves alone, ints as bounds, a step of 1 to 2047.
pub fn is_loop(
    names: &Names,
    variable: &ForNames,
    low: &Expr,
    high: &Expr,
    step: u32,
    body: &Stmt,
) -> bool
    ensures { result ≡ is_loop (scope_of names.now) (loop_names_of variable.now) (expression_of low.now) (expression_of high.now) step (statement_of body.now) }
{
    same_name(variable)
        && is_int_local(names.meaning_of(&variable.first))
        && !assigns(&variable.first, body)
        && is_int(kind_of(names, low))
        && is_int(kind_of(names, high))
        && is_between(1, 2047, step)
}
