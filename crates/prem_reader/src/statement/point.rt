// Where the reader of statements stands. What is large stands behind a `Box`: a way out of a function on which it
// lets go of a large enum by value is dear to prove, and one on which it lets go of a box is cheap.
ghost use Rattle.std.specs.Prelude.{◌≡◌, IfOk};

use crate::expression::State;
use crate::statement::slot::Slot;
use prem_list::Sequence;
use prem_syntax::{BinOp, Expr, ForNames, Name, Place, Stmt};
use prem_text::lexing::token::Spotted;
use std::alloc::{AllocError, Global};

/// What is open around a statement, the innermost first.
#[derive(Drop)]
pub enum Around {
    /// The body of a function, with its statements before this one.
    Body {
        before: Sequence<Stmt>,
    },
    /// A block, with its statements before this one.
    Block {
        at: Place,
        before: Sequence<Stmt>,
        around: Box<Around>,
    },
    /// `if (condition)`.
    Taken {
        at: Place,
        condition: Expr,
        around: Box<Around>,
    },
    /// `if (condition) taken else`.
    Other {
        at: Place,
        condition: Expr,
        taken: Box<Stmt>,
        around: Box<Around>,
    },
    /// `BOUNDED(turns) while (condition)`.
    While {
        at: Place,
        turns: u32,
        condition: Expr,
        around: Box<Around>,
    },
    /// `for (..)`.
    For {
        at: Place,
        names: ForNames,
        low: Expr,
        closed: bool,
        high: Expr,
        step: u32,
        around: Box<Around>,
    },
}

/// A `for` up to the second `;` of its parentheses.
#[derive(Drop)]
pub struct Header {
    pub at: Place,
    pub first: Name,
    pub low: Expr,
    pub second: Name,
    pub closed: bool,
    pub high: Expr,
}

/// What an expression is for; its statement stands at `at`.
#[derive(Drop)]
pub enum Purpose {
    Output {
        at: Place,
    },
    If {
        at: Place,
    },
    While {
        at: Place,
        turns: u32,
    },
    /// The first value of a `for`.
    Low {
        at: Place,
        first: Name,
    },
    /// The bound of a `for`.
    High {
        at: Place,
        first: Name,
        low: Expr,
        second: Name,
        closed: bool,
    },
    /// The index at the left of an assignment.
    Index {
        at: Place,
        name: Name,
    },
    /// The right side of `=`.
    Value {
        at: Place,
        name: Name,
        index: Option<Expr>,
    },
    /// The right side of `+=` or `-=`, which stands at `sign`.
    Change {
        at: Place,
        name: Name,
        index: Option<Expr>,
        op: BinOp,
        sign: Place,
    },
    /// An argument of a call, with those before it.
    Argument {
        at: Place,
        target: Option<Name>,
        callee: Name,
        before: Sequence<Expr>,
    },
}

/// What a row of tokens is for of which no other choice is left.
#[derive(Drop)]
pub enum Row {
    /// `if (`.
    If,
    /// `out (`.
    Out,
    /// `BOUNDED ( turns ) while (`.
    While,
    /// `for ( name =`.
    For,
    /// `; name <`.
    Bound { at: Place, first: Name, low: Expr },
    /// `; name ++`.
    Sign { header: Header },
    /// The end of a step.
    Step { header: Header },
    /// The end of a statement.
    Last { statement: Box<Stmt> },
}

/// An expression that is read, and may have `room` - 1 more tokens.
#[derive(Drop)]
pub struct Reading {
    pub purpose: Purpose,
    pub state: State,
    pub room: u32,
}

/// What a token is to an expression that is read.
#[derive(Drop)]
pub enum Going {
    /// One of its tokens.
    On,
    /// The first one behind it. Where that is `(`, `callee` is the name that is all of the expression.
    Ends { value: Expr, callee: Option<Name> },
    /// No expression has it here; `first` tells whether it would have been the first one.
    Stops { first: bool },
}

/// Where the reader of statements stands.
#[derive(Drop)]
pub enum Point {
    /// Before a statement.
    Between {
        around: Box<Around>,
    },
    /// Behind the statement of an `if`, where an `else` may come.
    MayElse {
        at: Place,
        condition: Expr,
        taken: Box<Stmt>,
        around: Box<Around>,
    },
    /// In a row of tokens.
    Filling {
        row: Box<Row>,
        got: Sequence<Spotted>,
        wanted: Slot,
        later: &'static [Slot],
        around: Box<Around>,
    },
    /// In an expression.
    Inside {
        reading: Box<Reading>,
        around: Box<Around>,
    },
    /// Behind the name that begins a statement.
    OnName {
        at: Place,
        name: Name,
        around: Box<Around>,
    },
    /// Behind the element that begins a statement.
    OnElement {
        at: Place,
        name: Name,
        index: Expr,
        around: Box<Around>,
    },
}

/// What a token is to the statements of a body.
#[derive(Drop)]
pub enum Turn {
    /// One of their tokens.
    On { point: Point },
    /// The first one behind them.
    Leaves { statements: Sequence<Stmt> },
    /// No body has it here.
    Wrong,
}

/// A box of a value. Where memory is out, the value is dropped.
pub fn boxed<T: Drop>(alloc: Global, value: T) -> Result<Box<T>, AllocError>
    ensures { IfOk result (λ b. b.value ≡ value) }
{
    Ok(Box::new(alloc, value)?)
}
