// Statements in statements: their ends and their nesting.
ghost use Rattle.std.specs.Prelude.{◌≡◌, IfOk, map};
ghost use Rattle.prem_list.specs.Sequence.{items_of};
ghost use Rattle.prem_syntax.specs.Syntax.{block, if_then, if_else, bounded_while, counting_for};
ghost use Rattle.prem_syntax.specs.SyntaxOf.{expression_of, loop_names_of, statement_of};
ghost use Rattle.prem_text.specs.Lexing.Token.Lexeme.{seen_of};
ghost use Rattle.prem_text.specs.Grammar.Statement.{listed, on, ended, settled, nests, has_begun_block, begins_row, is_past};
ghost use Rattle.prem_reader.specs.Statement.PointOf.{around_of, row_of, point_of, taken_of};

use crate::statement::point::{Around, Point, Row, boxed};
use prem_list::Sequence;
use prem_syntax::{Expr, ForNames, Place, Stmt};
use prem_text::lexing::token::Spotted;
use std::alloc::{AllocError, Global};

/// The greatest nesting of a statement; those of a function's body have nesting 1.
const NESTING: u32 = 64;

/// A block with its statements.
pub(crate) fn block(at: Place, body: Sequence<Stmt>) -> Stmt
    ensures { statement_of result ≡ block at (listed (map statement_of (items_of body))) }
{
    Stmt::Block { at, body }
}

fn if_then(at: Place, cond: Expr, taken: Box<Stmt>) -> Stmt
    ensures { statement_of result ≡ if_then at (expression_of cond) (statement_of taken.value) }
{
    let other = None;
    Stmt::If {
        at,
        cond,
        taken,
        other,
    }
}

fn if_else(at: Place, cond: Expr, taken: Box<Stmt>, other: Box<Stmt>) -> Stmt
    ensures { statement_of result ≡ if_else at (expression_of cond) (statement_of taken.value) (statement_of other.value) }
{
    let other = Some(other);
    Stmt::If {
        at,
        cond,
        taken,
        other,
    }
}

fn bounded_while(at: Place, turns: u32, cond: Expr, body: Box<Stmt>) -> Stmt
    ensures { statement_of result ≡ bounded_while at turns (expression_of cond) (statement_of body.value) }
{
    Stmt::While {
        at,
        turns,
        cond,
        body,
    }
}

fn counting_for(
    at: Place,
    names: ForNames,
    low: Expr,
    closed: bool,
    high: Expr,
    step: u32,
    body: Box<Stmt>,
) -> Stmt
    ensures { statement_of result ≡ counting_for at (loop_names_of names) (expression_of low) closed (expression_of high) step (statement_of body.value) }
{
    Stmt::For {
        at,
        names,
        low,
        closed,
        high,
        step,
        body,
    }
}

/// A statement has ended, and perhaps those that it ends; an `if` waits for its `else`.
pub(crate) fn ended(
    alloc: Global,
    around: Box<Around>,
    statement: Stmt,
) -> Result<Point, AllocError>
    ensures { IfOk result (λ p. point_of p ≡ ended (statement_of statement) (around_of around.value)) }
{
    match Box::into_inner(around) {
        Around::Body { mut before } => {
            before.push(statement)?;
            let around = boxed(alloc, Around::Body { before })?;
            Ok(Point::Between { around })
        }
        Around::Block {
            at,
            mut before,
            around,
        } => {
            before.push(statement)?;
            let around = boxed(alloc, Around::Block { at, before, around })?;
            Ok(Point::Between { around })
        }
        Around::Taken {
            at,
            condition,
            around,
        } => {
            let taken = boxed(alloc, statement)?;
            Ok(Point::MayElse {
                at,
                condition,
                taken,
                around,
            })
        }
        Around::Other {
            at,
            condition,
            taken,
            around,
        } => {
            let other = boxed(alloc, statement)?;
            ended(alloc, around, if_else(at, condition, taken, other))
        }
        Around::While {
            at,
            turns,
            condition,
            around,
        } => {
            let body = boxed(alloc, statement)?;
            ended(alloc, around, bounded_while(at, turns, condition, body))
        }
        Around::For {
            at,
            names,
            low,
            closed,
            high,
            step,
            around,
        } => {
            let body = boxed(alloc, statement)?;
            let whole = counting_for(at, names, low, closed, high, step, body);
            ended(alloc, around, whole)
        }
    }
}

/// The same where no `else` comes.
fn settled(alloc: Global, around: Box<Around>, statement: Stmt) -> Result<Box<Around>, AllocError>
    ensures { IfOk result (λ a. around_of a.value ≡ settled (statement_of statement) (around_of around.value)) }
{
    match Box::into_inner(around) {
        Around::Body { mut before } => {
            before.push(statement)?;
            boxed(alloc, Around::Body { before })
        }
        Around::Block {
            at,
            mut before,
            around,
        } => {
            before.push(statement)?;
            boxed(alloc, Around::Block { at, before, around })
        }
        Around::Taken {
            at,
            condition,
            around,
        } => {
            let taken = boxed(alloc, statement)?;
            settled(alloc, around, if_then(at, condition, taken))
        }
        Around::Other {
            at,
            condition,
            taken,
            around,
        } => {
            let other = boxed(alloc, statement)?;
            settled(alloc, around, if_else(at, condition, taken, other))
        }
        Around::While {
            at,
            turns,
            condition,
            around,
        } => {
            let body = boxed(alloc, statement)?;
            settled(alloc, around, bounded_while(at, turns, condition, body))
        }
        Around::For {
            at,
            names,
            low,
            closed,
            high,
            step,
            around,
        } => {
            let body = boxed(alloc, statement)?;
            let whole = counting_for(at, names, low, closed, high, step, body);
            settled(alloc, around, whole)
        }
    }
}

/// A statement has ended.
pub(crate) fn statement_ends(
    alloc: Global,
    around: Box<Around>,
    statement: Stmt,
) -> Result<Option<Point>, AllocError>
    ensures { IfOk result (λ p. taken_of p ≡ on (ended (statement_of statement) (around_of around.value))) }
{
    let point = ended(alloc, around, statement)?;
    Ok(Some(point))
}

/// An `if` has ended without an `else`.
pub(crate) fn no_else(
    alloc: Global,
    at: Place,
    condition: Expr,
    taken: Box<Stmt>,
    around: Box<Around>,
) -> Result<Box<Around>, AllocError>
    ensures { IfOk result (λ a. around_of a.value ≡ settled (if_then at (expression_of condition) (statement_of taken.value)) (around_of around.value)) }
{
    settled(alloc, around, if_then(at, condition, taken))
}

/// Whether at most so many statements are open.
fn nests(around: &Around, most: u32) -> bool
    ensures { result ≡ nests most (around_of around.now) }
{
    match around {
        Around::Body { .. } => true,
        Around::Block { around, .. }
        | Around::Taken { around, .. }
        | Around::Other { around, .. }
        | Around::While { around, .. }
        | Around::For { around, .. } => most > 0 && nests(around, most - 1),
    }
}

/// Whether the last token began a block inside more than 63 other statements.
fn has_begun_block(around: &Around) -> bool
    ensures { result ≡ has_begun_block (around_of around.now) }
{
    match around {
        Around::Block { before, around, .. } => {
            before.items().is_empty() && !nests(around, NESTING - 1)
        }
        _ => false,
    }
}

/// Whether a row is that of a statement, of which it has the first token.
fn begins_row(row: &Row, got: &[Spotted]) -> bool
    ensures { result ≡ begins_row (row_of row.now) (map seen_of got.now) }
{
    match row {
        Row::If | Row::Out | Row::While | Row::For => got.len() == 1,
        _ => false,
    }
}

/// Whether the last token was the 257th of an expression, or the first one of a statement of nesting 65.
pub fn is_past(point: &Point) -> bool
    ensures { result ≡ is_past (point_of point.now) }
{
    match point {
        Point::Between { around } => has_begun_block(around),
        Point::Filling {
            row,
            got,
            around,
            ..
        } => begins_row(row, got.items()) && !nests(around, NESTING - 1),
        Point::Inside { reading, .. } => reading.room == 0,
        Point::OnName { around, .. } => !nests(around, NESTING - 1),
        Point::MayElse { .. } | Point::OnElement { .. } => false,
    }
}
