// What expressions evaluate to.
ghost use Rattle.std.specs.Prelude.{◌≡◌, map};
ghost use Rattle.prem_syntax.specs.Expressions.{cell, unary_word, operate, eval};
ghost use Rattle.prem_syntax.specs.Source.{everywhere};
ghost use Rattle.prem_tree.specs.Resolve.ResolvedOf.{term_of};

use crate::resolve::Term;
use prem_syntax::UnOp;
use prem_word::{BinOp, Kind, apply};

/// A line of the text, from 1; 0 stands for none.
pub type Line = u32;

fn unary_word(op: UnOp, a: u32) -> u32
    ensures { result ≡ unary_word op a }
{
    match op {
        UnOp::Neg => apply(BinOp::Sub, Kind::Unsigned, 0, a),
        UnOp::Flip => !a,
        UnOp::Not => u32::from(a == 0),
    }
}

/// An operator on two words; a quotient or remainder by 0 is wrong at the line.
fn operate(line: Line, op: BinOp, kind: Kind, a: u32, b: u32) -> Result<u32, Line>
    ensures { result ≡ operate line op kind a b }
{
    match op {
        BinOp::Div | BinOp::Rem => {
            if b == 0 {
                return Err(line);
            }
            Ok(apply(op, kind, a, b))
        }
        BinOp::AndAlso => Ok(u32::from(a != 0 && b != 0)),
        BinOp::OrElse => Ok(u32::from(a != 0 || b != 0)),
        _ => Ok(apply(op, kind, a, b)),
    }
}

/// The word of element `j` of global `g`.
fn cell(globals: &[Vec<u32>], g: usize, j: usize) -> Option<u32>
    ensures { result ≡ cell everywhere (map (λ words. words.items) globals.now) g j }
{
    globals.get(g)?.get(j).copied()
}

/// The word of a term, or the line at which it is wrong.
pub fn eval(globals: &[Vec<u32>], locals: &[u32], term: &Term) -> Result<u32, Line>
    ensures { result ≡ eval everywhere (map (λ words. words.items) globals.now) locals.now (term_of term.now) }
{
    match term {
        Term::Constant { word, .. } => Ok(*word),
        Term::Local { number, .. } => Ok(locals.get(*number).copied().unwrap_or(0)),
        Term::Scalar { at, global, .. } => cell(globals, *global, 0).ok_or(at.line),
        Term::Element {
            at,
            global,
            index,
            ..
        } => {
            let j = eval(globals, locals, index)?;
            cell(globals, *global, j as usize).ok_or(at.line)
        }
        Term::Unary { op, operand, .. } => Ok(unary_word(*op, eval(globals, locals, operand)?)),
        Term::Binary {
            op: BinOp::AndAlso,
            operands,
            ..
        } => {
            if eval(globals, locals, &operands.left)? == 0 {
                return Ok(0);
            }
            Ok(u32::from(eval(globals, locals, &operands.right)? != 0))
        }
        Term::Binary {
            op: BinOp::OrElse,
            operands,
            ..
        } => {
            if eval(globals, locals, &operands.left)? != 0 {
                return Ok(1);
            }
            Ok(u32::from(eval(globals, locals, &operands.right)? != 0))
        }
        Term::Binary {
            at,
            op,
            kind,
            operands,
        } => {
            let a = eval(globals, locals, &operands.left)?;
            let b = eval(globals, locals, &operands.right)?;
            operate(at.line, *op, *kind, a, b)
        }
    }
}
