// Assignments behind their left side.
ghost use Rattle.std.specs.Prelude.{◌≡◌, IfOk, [], ◌∷◌, map};
ghost use Rattle.std.specs.Option.{option_map};
ghost use Rattle.prem_list.specs.Sequence.{items_of};
ghost use Rattle.prem_syntax.specs.Name.{name_bytes};
ghost use Rattle.prem_syntax.specs.SyntaxOf.{expression_of, statement_of};
ghost use Rattle.prem_text.specs.Lexing.Token.Lexeme.{lexeme_of, seen_of};
ghost use Rattle.prem_text.specs.Grammar.Statement.{expression, begin, finish, side, changed, by_one, change};
ghost use Rattle.prem_reader.specs.Statement.SlotOf.{slot_of};
ghost use Rattle.prem_reader.specs.Statement.PointOf.{around_of, use_of, row_of, taken_of};

use crate::expression::{ROOM, State, copy_expression};
use crate::statement::point::{Around, Point, Purpose, Reading, Row, boxed};
use crate::statement::row::NOTHING;
use crate::statement::slot::Slot;
use crate::taken::take_spotted;
use prem_list::Sequence;
use prem_syntax::{BinOp, Expr, Kind, Name, Place, Stmt, copy_name};
use prem_text::lexing::token::{Mark, Spotted, Token};
use std::alloc::{AllocError, Global};

/// An expression is read from its beginning.
pub(crate) fn expression(
    alloc: Global,
    purpose: Purpose,
    around: Box<Around>,
) -> Result<Option<Point>, AllocError>
    ensures { IfOk result (λ p. taken_of p ≡ expression (use_of purpose) (around_of around.value)) }
{
    let reading = Reading {
        purpose,
        state: State::new(alloc),
        room: ROOM,
    };
    let reading = boxed(alloc, reading)?;
    Ok(Some(Point::Inside { reading, around }))
}

/// The first token of a row.
fn first_of(alloc: Global, spotted: &mut Spotted) -> Result<Sequence<Spotted>, AllocError>
    ensures { IfOk result (λ got. map seen_of (items_of got) ≡ seen_of spotted.old ∷ []) }
{
    let mut got = Sequence::new(alloc);
    got.push(take_spotted(spotted))?;
    Ok(got)
}

/// A row begins with a token.
pub(crate) fn begin(
    alloc: Global,
    row: Row,
    spotted: &mut Spotted,
    wanted: Slot,
    later: &'static [Slot],
    around: Box<Around>,
) -> Result<Option<Point>, AllocError>
    ensures { IfOk result (λ p. taken_of p ≡ begin (row_of row) (seen_of spotted.old) (slot_of wanted) (map slot_of later.now) (around_of around.value)) }
{
    let row = boxed(alloc, row)?;
    let got = first_of(alloc, spotted)?;
    Ok(Some(Point::Filling {
        row,
        got,
        wanted,
        later,
        around,
    }))
}

/// Only the `;` of a statement is left.
pub(crate) fn finish(
    alloc: Global,
    statement: Stmt,
    spotted: &mut Spotted,
    around: Box<Around>,
) -> Result<Option<Point>, AllocError>
    ensures { IfOk result (λ p. taken_of p ≡ finish (statement_of statement) (seen_of spotted.old) (around_of around.value)) }
{
    let statement = boxed(alloc, statement)?;
    let row = Row::Last { statement };
    begin(alloc, row, spotted, Slot::Semicolon, &NOTHING, around)
}

/// The tree of a left side, read as an operand.
fn side(alloc: Global, at: Place, name: &Name, index: &Option<Expr>) -> Result<Expr, AllocError>
    ensures { IfOk result (λ e. expression_of e ≡ side at (name_bytes name.now) (option_map expression_of index.now)) }
{
    let name = copy_name(alloc, name)?;
    match index {
        None => Ok(Expr::Var { at, name }),
        Some(index) => {
            let index = boxed(alloc, copy_expression(alloc, index)?)?;
            Ok(Expr::Elem { at, name, index })
        }
    }
}

/// `x += e` is `x = x + (e)`, and `x -= e` is `x = x - (e)`; what is made stands at the sign.
pub(crate) fn changed(
    alloc: Global,
    at: Place,
    name: Name,
    index: Option<Expr>,
    op: BinOp,
    sign: Place,
    change: Expr,
) -> Result<Stmt, AllocError>
    ensures { IfOk result (λ s. statement_of s ≡ changed at (name_bytes name) (option_map expression_of index) op sign (expression_of change)) }
{
    let left = boxed(alloc, side(alloc, at, &name, &index)?)?;
    let right = boxed(alloc, change)?;
    let value = Expr::Binary {
        at: sign,
        op,
        left,
        right,
    };
    Ok(Stmt::Set {
        at,
        name,
        index,
        value,
    })
}

/// `x++` is `x = x + 1`, and `x--` is `x = x - 1`.
fn by_one(
    alloc: Global,
    at: Place,
    name: Name,
    index: Option<Expr>,
    op: BinOp,
    sign: Place,
) -> Result<Stmt, AllocError>
    ensures { IfOk result (λ s. statement_of s ≡ by_one at (name_bytes name) (option_map expression_of index) op sign) }
{
    let one = Expr::Literal {
        at: sign,
        value: 1,
        kind: Kind::Int,
    };
    changed(alloc, at, name, index, op, sign, one)
}

/// The sign of an assignment.
pub(crate) fn change(
    alloc: Global,
    at: Place,
    name: Name,
    index: Option<Expr>,
    around: Box<Around>,
    spotted: &mut Spotted,
) -> Result<Option<Point>, AllocError>
    ensures { IfOk result (λ p. taken_of p ≡ change at (name_bytes name) (option_map expression_of index) (around_of around.value) (seen_of spotted.old) (lexeme_of spotted.old.token)) }
{
    let sign = spotted.at;
    match &spotted.token {
        Token::Mark(Mark::Equal) => expression(alloc, Purpose::Value { at, name, index }, around),
        Token::Mark(Mark::PlusEqual) => {
            let op = BinOp::Add;
            let purpose = Purpose::Change {
                at,
                name,
                index,
                op,
                sign,
            };
            expression(alloc, purpose, around)
        }
        Token::Mark(Mark::MinusEqual) => {
            let op = BinOp::Sub;
            let purpose = Purpose::Change {
                at,
                name,
                index,
                op,
                sign,
            };
            expression(alloc, purpose, around)
        }
        Token::Mark(Mark::PlusPlus) => {
            let whole = by_one(alloc, at, name, index, BinOp::Add, sign)?;
            finish(alloc, whole, spotted, around)
        }
        Token::Mark(Mark::MinusMinus) => {
            let whole = by_one(alloc, at, name, index, BinOp::Sub, sign)?;
            finish(alloc, whole, spotted, around)
        }
        _ => Ok(None),
    }
}
