// Expressions, with the fewest parentheses.
#![tactic(auto, using(crate::proofs::Writing::written_append))]

ghost use Rattle.std.specs.Prelude.{◌≡◌, OnOk};
ghost use Rattle.prem_syntax.specs.SyntaxOf.{expression_of};
ghost use Rattle.prem_text.specs.Grammar.Expression.{level_of};
ghost use Rattle.prem_text.specs.Canonical.Canonical.{constant_lexemes, expression_lexemes, infix_sign, prefix_sign};
ghost use Rattle.prem_print.specs.Written.{written};

use crate::token::{push_literal, push_mark, push_name, push_number};
use prem_syntax::{BinOp, Expr, UnOp};
use prem_text::lexing::token::Mark;
use std::alloc::AllocError;

/// A constant.
pub fn push_constant(text: &mut Vec<u8>, value: i64) -> Result<(), AllocError>
    ensures { OnOk result (text.new.items ≡ written text.old.items (constant_lexemes value)) }
{
    if value < 0 {
        push_mark(text, Mark::Minus)?;
    }
    push_number(text, value.unsigned_abs())
}

/// The mark of an operator between operands.
fn infix_sign(op: BinOp) -> Mark
    ensures { result ≡ infix_sign op }
{
    match op {
        BinOp::OrElse => Mark::OrOr,
        BinOp::AndAlso => Mark::AndAnd,
        BinOp::Or => Mark::Or,
        BinOp::Xor => Mark::Caret,
        BinOp::And => Mark::And,
        BinOp::Eq => Mark::EqualEqual,
        BinOp::Ne => Mark::NotEqual,
        BinOp::Lt => Mark::Less,
        BinOp::Le => Mark::LessEqual,
        BinOp::Gt => Mark::Greater,
        BinOp::Ge => Mark::GreaterEqual,
        BinOp::Shl => Mark::ShiftLeft,
        BinOp::Shr => Mark::ShiftRight,
        BinOp::Add => Mark::Plus,
        BinOp::Sub => Mark::Minus,
        BinOp::Mul => Mark::Star,
        BinOp::Div => Mark::Slash,
        BinOp::Rem => Mark::Percent,
    }
}

/// The mark of a prefix.
fn prefix_sign(op: UnOp) -> Mark
    ensures { result ≡ prefix_sign op }
{
    match op {
        UnOp::Neg => Mark::Minus,
        UnOp::Flip => Mark::Tilde,
        UnOp::Not => Mark::Bang,
    }
}

/// The level of an operator, from 1 for the loosest to 10.
fn level_of(op: BinOp) -> u8
    ensures { result ≡ level_of op }
{
    match op {
        BinOp::OrElse => 1,
        BinOp::AndAlso => 2,
        BinOp::Or => 3,
        BinOp::Xor => 4,
        BinOp::And => 5,
        BinOp::Eq | BinOp::Ne => 6,
        BinOp::Lt | BinOp::Le | BinOp::Gt | BinOp::Ge => 7,
        BinOp::Shl | BinOp::Shr => 8,
        BinOp::Add | BinOp::Sub => 9,
        BinOp::Mul | BinOp::Div | BinOp::Rem => 10,
    }
}

/// An expression where one of a level or tighter is wanted.
pub fn push_expression(text: &mut Vec<u8>, least: u8, expression: &Expr) -> Result<(), AllocError>
    ensures { OnOk result (text.new.items ≡ written text.old.items (expression_lexemes least (expression_of expression.now))) }
{
    match expression {
        Expr::Literal { value, kind, .. } => push_literal(text, *value as u64, *kind),
        Expr::Var { name, .. } => push_name(text, name),
        Expr::Elem { name, index, .. } => {
            push_name(text, name)?;
            push_mark(text, Mark::OpenBracket)?;
            push_expression(text, 1, index)?;
            push_mark(text, Mark::CloseBracket)
        }
        Expr::Unary { op, arg, .. } => {
            push_mark(text, prefix_sign(*op))?;
            push_expression(text, 11, arg)
        }
        Expr::Binary {
            op,
            left,
            right,
            ..
        } => {
            let level = level_of(*op);
            let encloses = level < least;
            if encloses {
                push_mark(text, Mark::OpenParenthesis)?;
            }
            push_expression(text, level, left)?;
            push_mark(text, infix_sign(*op))?;
            push_expression(text, level + 1, right)?;
            if encloses {
                push_mark(text, Mark::CloseParenthesis)?;
            }
            Ok(())
        }
    }
}
