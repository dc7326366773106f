// The shape that a function has to have.
ghost use Rattle.std.specs.Prelude.{◌≡◌, ◌<◌, ◌≤◌, map};
ghost use Rattle.std.specs.Option.{option_map};
ghost use Rattle.prem_syntax.specs.SyntaxOf.{expression_of, statement_of, statements_of, parameter_of, local_of, function_of};
ghost use Rattle.prem_tiling.specs.Shapes.Shape.{is_literal, is_constant, has_call, have_call, number_of, loop_of, only_loop, without_call, no_parameters, are_constants, shape_of, bound_of, turns_of};
ghost use Rattle.prem_tiling.specs.Copies.ShapeOf.{number_in, loop_in};

use prem_syntax::{Expr, ForNames, Function, Kind, Local, Param, Place, Stmt, UnOp};

/// A literal where it stands.
#[derive(Clone, Copy)]
pub struct Number {
    pub at: Place,
    pub value: u32,
    pub kind: Kind,
}

/// A counting loop between two literals.
#[derive(Clone, Copy)]
pub struct Loop<'a> {
    pub at: Place,
    pub names: &'a ForNames,
    pub low: Number,
    pub closed: bool,
    pub high: Number,
    pub step: u32,
    pub body: &'a Stmt,
}

fn is_literal(e: &Expr) -> bool
    ensures { result ≡ is_literal (expression_of e.now) }
{
    matches!(e, Expr::Literal { .. })
}

fn is_constant(e: &Expr) -> bool
    ensures { result ≡ is_constant (expression_of e.now) }
{
    match e {
        Expr::Literal { .. } => true,
        Expr::Unary {
            op: UnOp::Neg,
            arg,
            ..
        } => is_literal(arg),
        _ => false,
    }
}

fn number_of(e: &Expr) -> Option<Number>
    ensures { option_map number_in result ≡ number_of (expression_of e.now) }
{
    match e {
        Expr::Literal { at, value, kind } if *value <= 2147483647 => Some(Number {
            at: *at,
            value: *value,
            kind: *kind,
        }),
        _ => None,
    }
}

#[cycle(calling)]
fn has_call(stmt: &Stmt) -> bool
    ensures { result ≡ has_call (statement_of stmt.now) }
{
    match stmt {
        Stmt::Block { body, .. } => have_call(body.items()),
        Stmt::If { taken, other, .. } => {
            has_call(taken)
                || match other {
                    Some(other) => has_call(other),
                    None => false,
                }
        }
        Stmt::While { body, .. } => has_call(body),
        Stmt::For { body, .. } => has_call(body),
        Stmt::Set { .. } => false,
        Stmt::Output { .. } => false,
        Stmt::Input { .. } => false,
        Stmt::Call { .. } => true,
    }
}

#[cycle(calling)]
fn have_call(stmts: &[Stmt]) -> bool
    ensures { result ≡ have_call (statements_of stmts.now) }
{
    'stmts: for stmt in stmts {
        if has_call(stmt) {
            return true;
        }
    }
    false
}

fn loop_of(stmt: &Stmt) -> Option<Loop<'_>>
    ensures { option_map loop_in result ≡ loop_of (statement_of stmt.now) }
{
    match stmt {
        Stmt::For {
            at,
            names,
            low,
            closed,
            high,
            step,
            body,
        } => match (number_of(low), number_of(high)) {
            (Some(low), Some(high)) => Some(Loop {
                at: *at,
                names,
                low,
                closed: *closed,
                high,
                step: *step,
                body,
            }),
            _ => None,
        },
        _ => None,
    }
}

#[tactic(auto, using(crate::proofs::CopiesLemmas::Blocks::two_are_no_loop))]
fn only_loop(stmts: &[Stmt]) -> Option<Loop<'_>>
    ensures { option_map loop_in result ≡ only_loop (statements_of stmts.now) }
{
    match stmts {
        [] => None,
        [stmt] => loop_of(stmt),
        [_, _, ..] => None,
    }
}

fn without_call(found: Option<Loop<'_>>) -> Option<Loop<'_>>
    ensures { option_map loop_in result ≡ without_call (option_map loop_in found.entry) }
{
    match found {
        Some(l) => if has_call(l.body) { None } else { Some(l) },
        None => None,
    }
}

fn no_parameters(params: &[Param]) -> bool
    ensures { result ≡ no_parameters (map parameter_of params.now) }
{
    params.is_empty()
}

fn are_constants(locals: &[Local]) -> bool
    ensures { result ≡ are_constants (map local_of locals.now) }
{
    'locals: for local in locals {
        if !is_constant(&local.value) {
            return false;
        }
    }
    true
}

/// The loop of a marked function without parameters, whose locals begin with constants, and that does nothing else.
pub fn shape_of(f: &Function) -> Option<Loop<'_>>
    ensures { option_map loop_in result ≡ shape_of (function_of f.now) }
{
    if f.mark.is_some() && no_parameters(f.params.items()) && are_constants(f.locals.items()) {
        without_call(only_loop(f.body.items()))
    } else {
        None
    }
}

fn bound_of(l: &Loop) -> u64
    ensures bound { result ≡ bound_of (loop_in l.now) }
    ensures small { result ≤ 4294967296 }
{
    if l.closed {
        l.high.value as u64 + 1
    } else {
        l.high.value as u64
    }
}

/// The number of turns of a loop.
pub fn turns_of(l: &Loop) -> u64
    requires { 0 < l.now.step }
    ensures turns { result ≡ turns_of (loop_in l.now) }
    ensures small { result ≤ 4294967296 }
{
    let bound = bound_of(l);
    let low = l.low.value as u64;
    if bound <= low {
        0
    } else {
        (bound - low).div_ceil(l.step as u64)
    }
}
