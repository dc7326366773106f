// What is open around an operand: the operator stack of the reader of expressions.
ghost use Rattle.std.specs.Prelude.{◌≡◌};
ghost use Rattle.prem_text.specs.Grammar.Expression.{level_of};

use prem_syntax::{BinOp, Expr, Name, Place, UnOp};
use std::alloc::{AllocError, Global};

/// What is open around an operand.
#[derive(Drop)]
pub enum Open {
    /// A prefix before the operand.
    Under { at: Place, op: UnOp },
    /// An operator before the operand, with its left side.
    RightOf { left: Expr, at: Place, op: BinOp },
    /// An opening parenthesis.
    Bracket,
    /// A name and the opening bracket of its index.
    IndexOf { at: Place, name: Name },
}

/// All that is open around an operand.
#[derive(Drop)]
pub struct OpenStack {
    /// The outermost first.
    all: Vec<Open>,
}

/// The level of an operator, from the loosest to the tightest.
pub fn level_of(op: BinOp) -> u32
    ensures { result ≡ level_of op }
{
    match op {
        BinOp::OrElse => 1,
        BinOp::AndAlso => 2,
        BinOp::Or => 3,
        BinOp::Xor => 4,
        BinOp::And => 5,
        BinOp::Eq | BinOp::Ne => 6,
        BinOp::Lt | BinOp::Le | BinOp::Gt | BinOp::Ge => 7,
        BinOp::Shl | BinOp::Shr => 8,
        BinOp::Add | BinOp::Sub => 9,
        BinOp::Mul | BinOp::Div | BinOp::Rem => 10,
    }
}

impl OpenStack {
    ghost use Rattle.std.specs.Prelude.{◌≡◌, IfNone, IfOk, IfSome};
    ghost use Rattle.prem_syntax.specs.SyntaxOf.{expression_of};
    ghost use Rattle.prem_text.specs.Grammar.Expression.{bind, bottom, wants};
    ghost use Rattle.prem_text.specs.Grammar.Statement.{is_start};
    ghost use Rattle.prem_reader.specs.Expression.StateOf.{opened, open_of};

    /// Nothing is open.
    pub fn new(alloc: Global) -> OpenStack
        ensures { open_of result ≡ bottom }
    {
        OpenStack {
            all: Vec::new(alloc),
        }
    }

    /// Whether nothing is open.
    pub fn is_empty(&self) -> bool
        ensures { result ≡ is_start (wants (open_of self.now)) }
    {
        self.all.is_empty()
    }

    /// Opens something inside all that is open. It fails only for want of memory.
    pub fn push(&mut self, inner: Open) -> Result<(), AllocError>
        ensures { IfOk result (λ _. open_of self.new ≡ opened (open_of self.old) inner) }
    {
        self.all.push(inner)?;
        Ok(())
    }

    /// What is innermost, which is closed.
    pub fn pop(&mut self) -> Option<Open>
        ensures some { IfSome result (λ inner. open_of self.old ≡ opened (open_of self.new) inner) }
        ensures none { IfNone result (open_of self.old ≡ bottom) }
    {
        self.all.pop()
    }

    /// An operand together with all that binds it before an operator of a level does, which is closed. It fails only for
    /// want of memory.
    pub fn bind(&mut self, alloc: Global, level: u32, mut value: Expr) -> Result<Expr, AllocError>
        ensures { IfOk result (λ whole. (expression_of whole, open_of self.new) ≡ bind level (expression_of value) (open_of self.old)) }
    {
        while let Some(inner) = self.all.pop() {
            match inner {
                Open::Under { at, op } => {
                    let arg = Box::new(alloc, value)?;
                    value = Expr::Unary { at, op, arg };
                }
                Open::RightOf { left, at, op } => {
                    if level > level_of(op) {
                        self.all.push_reserved(Open::RightOf { left, at, op });
                        return Ok(value);
                    }
                    let left = Box::new(alloc, left)?;
                    let right = Box::new(alloc, value)?;
                    value = Expr::Binary {
                        at,
                        op,
                        left,
                        right,
                    };
                }
                Open::Bracket => {
                    self.all.push_reserved(Open::Bracket);
                    return Ok(value);
                }
                Open::IndexOf { at, name } => {
                    self.all.push_reserved(Open::IndexOf { at, name });
                    return Ok(value);
                }
            }
        }
        Ok(value)
    }
}
