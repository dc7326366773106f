// Copies of expressions.
ghost use Rattle.std.specs.Prelude.{◌≡◌, IfOk};
ghost use Rattle.prem_syntax.specs.SyntaxOf.{expression_of};

use prem_syntax::{Expr, copy_name};
use std::alloc::{AllocError, Global};

/// A copy of an expression, with the places of its parts. It fails only for want of memory.
pub fn copy_expression(alloc: Global, expression: &Expr) -> Result<Expr, AllocError>
    ensures { IfOk result (λ copy. expression_of copy ≡ expression_of expression.now) }
{
    Ok(match expression {
        Expr::Literal { at, value, kind } => Expr::Literal {
            at: *at,
            value: *value,
            kind: *kind,
        },
        Expr::Var { at, name } => Expr::Var {
            at: *at,
            name: copy_name(alloc, name)?,
        },
        Expr::Elem { at, name, index } => Expr::Elem {
            at: *at,
            name: copy_name(alloc, name)?,
            index: Box::new(alloc, copy_expression(alloc, index)?)?,
        },
        Expr::Unary { at, op, arg } => Expr::Unary {
            at: *at,
            op: *op,
            arg: Box::new(alloc, copy_expression(alloc, arg)?)?,
        },
        Expr::Binary {
            at,
            op,
            left,
            right,
        } => Expr::Binary {
            at: *at,
            op: *op,
            left: Box::new(alloc, copy_expression(alloc, left)?)?,
            right: Box::new(alloc, copy_expression(alloc, right)?)?,
        },
    })
}
