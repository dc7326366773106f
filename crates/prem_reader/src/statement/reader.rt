// Reading the statements of a body, one token after the other.
ghost use Rattle.std.specs.Prelude.{◌≡◌, IfOk, map, None, Some, []};
ghost use Rattle.prem_list.specs.Sequence.{items_of};
ghost use Rattle.prem_syntax.specs.Name.{name_bytes};
ghost use Rattle.prem_syntax.specs.SyntaxOf.{expression_of, statement_of};
ghost use Rattle.prem_text.specs.Lexing.Token.Lexeme.{lexeme_of, seen_of};
ghost use Rattle.prem_text.specs.Grammar.Statement.{between, in_block, for_row, bound_row, sign_row, step_row, filling, on, begins_statement, statement, without, next, else_or, filled, filled_or, behind_name, turn};
ghost use Rattle.prem_reader.specs.Statement.SlotOf.{slot_of};
ghost use Rattle.prem_reader.specs.Statement.PointOf.{around_of, header_of, row_of, point_of, taken_of, turn_of, IsLeft};

use crate::statement::change::{begin, change, expression};
use crate::statement::inside::within;
use crate::statement::nesting::{block, no_else, statement_ends};
use crate::statement::point::{Around, Header, Point, Purpose, Row, Turn, boxed};
use crate::statement::row::{
    FOR_ROW, NOTHING, WHILE_ROW, fourth_in, is_at_most, name_at, place_at, rest_of_step, step_in,
    value_at,
};
use crate::statement::slot::{
    Slot, fits, is_else, is_left_bracket, is_left_parenthesis, is_right_brace,
};
use crate::taken::{take_name, take_spotted};
use prem_list::Sequence;
use prem_syntax::{Expr, ForNames, Name, Place, Stmt};
use prem_text::lexing::token::{Mark, Spotted, Token, Word};
use std::alloc::{AllocError, Global};

/// A block begins.
fn block_begins(alloc: Global, at: Place, around: Box<Around>) -> Result<Option<Point>, AllocError>
    ensures { IfOk result (λ p. taken_of p ≡ on (between (in_block at [] (around_of around.value)))) }
{
    let before = Sequence::new(alloc);
    let around = boxed(alloc, Around::Block { at, before, around })?;
    Ok(Some(Point::Between { around }))
}

/// The first token of a statement.
fn statement(
    alloc: Global,
    around: Box<Around>,
    spotted: &mut Spotted,
) -> Result<Option<Point>, AllocError>
    ensures { IfOk result (λ p. taken_of p ≡ statement (around_of around.value) (seen_of spotted.old) (lexeme_of spotted.old.token)) }
{
    let at = spotted.at;
    let left = Slot::LeftParenthesis;
    match &spotted.token {
        Token::Mark(Mark::OpenBrace) => block_begins(alloc, at, around),
        Token::Name(_) => Ok(match take_name(spotted) {
            Some(name) => Some(Point::OnName { at, name, around }),
            None => None,
        }),
        Token::Word(Word::If) => begin(alloc, Row::If, spotted, left, &NOTHING, around),
        Token::Word(Word::Out) => begin(alloc, Row::Out, spotted, left, &NOTHING, around),
        Token::Word(Word::Bounded) => {
            begin(alloc, Row::While, spotted, left, &WHILE_ROW, around)
        }
        Token::Word(Word::For) => begin(alloc, Row::For, spotted, left, &FOR_ROW, around),
        _ => Ok(None),
    }
}

fn begins_statement(token: &Token) -> bool
    ensures { result ≡ begins_statement (lexeme_of token.now) }
{
    matches!(
        token,
        Token::Mark(Mark::OpenBrace)
            | Token::Word(Word::If | Word::Out | Word::Bounded | Word::For)
            | Token::Name(_)
    )
}

/// A block ends.
fn block_ends(
    alloc: Global,
    at: Place,
    before: Sequence<Stmt>,
    around: Box<Around>,
    spotted: &Spotted,
) -> Result<Option<Point>, AllocError>
    ensures { IfOk result (λ p. taken_of p ≡ without (in_block at (map statement_of (items_of before)) (around_of around.value)) (seen_of spotted.now)) }
{
    if !is_right_brace(&spotted.token) {
        return Ok(None);
    }
    statement_ends(alloc, around, block(at, before))
}

/// What a token is that no body leaves by.
fn turned(point: Option<Point>) -> Turn
    ensures turn { turn_of result ≡ taken_of point }
    ensures left { (old new : Spotted) → IsLeft result old new }
{
    match point {
        Some(point) => Turn::On { point },
        None => Turn::Wrong,
    }
}

/// A token that begins no statement is behind the body, or it closes a block.
fn without(alloc: Global, around: Box<Around>, spotted: &Spotted) -> Result<Turn, AllocError>
    ensures { IfOk result (λ t. turn_of t ≡ without (around_of around.value) (seen_of spotted.now)) }
{
    match Box::into_inner(around) {
        Around::Body { before } => Ok(Turn::Leaves { statements: before }),
        Around::Block { at, before, around } => {
            Ok(turned(block_ends(alloc, at, before, around, spotted)?))
        }
        _around => Ok(Turn::Wrong),
    }
}

fn next(alloc: Global, around: Box<Around>, spotted: &mut Spotted) -> Result<Turn, AllocError>
    ensures turn { IfOk result (λ t. turn_of t ≡ next (around_of around.value) (seen_of spotted.old)) }
    ensures left { IfOk result (λ t. IsLeft t spotted.old spotted.new) }
{
    if begins_statement(&spotted.token) {
        return Ok(turned(statement(alloc, around, spotted)?));
    }
    without(alloc, around, spotted)
}

/// An `else` belongs to the nearest `if`.
fn else_or(
    alloc: Global,
    at: Place,
    condition: Expr,
    taken: Box<Stmt>,
    around: Box<Around>,
    spotted: &mut Spotted,
) -> Result<Turn, AllocError>
    ensures turn { IfOk result (λ t. turn_of t ≡ else_or at (expression_of condition) (statement_of taken.value) (around_of around.value) (seen_of spotted.old)) }
    ensures left { IfOk result (λ t. IsLeft t spotted.old spotted.new) }
{
    if is_else(&spotted.token) {
        let around = Around::Other {
            at,
            condition,
            taken,
            around,
        };
        let around = boxed(alloc, around)?;
        return Ok(Turn::On {
            point: Point::Between { around },
        });
    }
    let around = no_else(alloc, at, condition, taken, around)?;
    next(alloc, around, spotted)
}

/// The step of a `for` has all its tokens.
fn step_filled(
    alloc: Global,
    header: Header,
    got: &[Spotted],
    around: Box<Around>,
) -> Result<Option<Point>, AllocError>
    ensures { IfOk result (λ p. taken_of p ≡ filled (step_row (header_of header)) (map seen_of got.now) (around_of around.value)) }
{
    let Some(third) = name_at(alloc, got, 1)? else {
        return Ok(None);
    };
    let Some(fourth) = fourth_in(alloc, got)? else {
        return Ok(None);
    };
    let names = ForNames {
        first: header.first,
        second: header.second,
        third,
        fourth,
    };
    let around = Around::For {
        at: header.at,
        names,
        low: header.low,
        closed: header.closed,
        high: header.high,
        step: step_in(got),
        around,
    };
    let around = boxed(alloc, around)?;
    Ok(Some(Point::Between { around }))
}

/// The first row of a `for` has all its tokens.
fn for_filled(
    alloc: Global,
    got: &[Spotted],
    around: Box<Around>,
) -> Result<Option<Point>, AllocError>
    ensures { IfOk result (λ p. taken_of p ≡ filled for_row (map seen_of got.now) (around_of around.value)) }
{
    let at = place_at(got, 0);
    match name_at(alloc, got, 2)? {
        Some(first) => expression(alloc, Purpose::Low { at, first }, around),
        None => Ok(None),
    }
}

/// The row before the bound of a `for` has all its tokens.
fn bound_filled(
    alloc: Global,
    at: Place,
    first: Name,
    low: Expr,
    got: &[Spotted],
    around: Box<Around>,
) -> Result<Option<Point>, AllocError>
    ensures { IfOk result (λ p. taken_of p ≡ filled (bound_row at (name_bytes first) (expression_of low)) (map seen_of got.now) (around_of around.value)) }
{
    let closed = is_at_most(got);
    match name_at(alloc, got, 1)? {
        Some(second) => {
            let purpose = Purpose::High {
                at,
                first,
                low,
                second,
                closed,
            };
            expression(alloc, purpose, around)
        }
        None => Ok(None),
    }
}

/// The row up to the sign of a step has all its tokens.
fn sign_filled(
    alloc: Global,
    header: Header,
    got: Sequence<Spotted>,
    around: Box<Around>,
) -> Result<Option<Point>, AllocError>
    ensures { IfOk result (λ p. taken_of p ≡ filled (sign_row (header_of header)) (map seen_of (items_of got)) (around_of around.value)) }
{
    let (wanted, later) = rest_of_step(got.items());
    let row = boxed(alloc, Row::Step { header })?;
    Ok(Some(Point::Filling {
        row,
        got,
        wanted,
        later,
        around,
    }))
}

/// A row has all its tokens.
fn filled(
    alloc: Global,
    row: Row,
    got: Sequence<Spotted>,
    around: Box<Around>,
) -> Result<Option<Point>, AllocError>
    ensures { IfOk result (λ p. taken_of p ≡ filled (row_of row) (map seen_of (items_of got)) (around_of around.value)) }
{
    let at = place_at(got.items(), 0);
    match row {
        Row::If => expression(alloc, Purpose::If { at }, around),
        Row::Out => expression(alloc, Purpose::Output { at }, around),
        Row::While => {
            let turns = value_at(got.items(), 2);
            expression(alloc, Purpose::While { at, turns }, around)
        }
        Row::For => for_filled(alloc, got.items(), around),
        Row::Bound { at, first, low } => {
            bound_filled(alloc, at, first, low, got.items(), around)
        }
        Row::Sign { header } => sign_filled(alloc, header, got, around),
        Row::Step { header } => step_filled(alloc, header, got.items(), around),
        Row::Last { statement } => statement_ends(alloc, around, Box::into_inner(statement)),
    }
}

fn filled_or(
    alloc: Global,
    row: Box<Row>,
    got: Sequence<Spotted>,
    later: &'static [Slot],
    around: Box<Around>,
) -> Result<Option<Point>, AllocError>
    ensures { IfOk result (λ p. taken_of p ≡ filled_or (row_of row.value) (map seen_of (items_of got)) (map slot_of later.now) (around_of around.value)) }
{
    match later {
        [] => filled(alloc, Box::into_inner(row), got, around),
        [wanted, rest @ ..] => Ok(Some(Point::Filling {
            row,
            got,
            wanted: *wanted,
            later: rest,
            around,
        })),
    }
}

/// A token in a row.
fn filling(
    alloc: Global,
    row: Box<Row>,
    mut got: Sequence<Spotted>,
    wanted: Slot,
    later: &'static [Slot],
    around: Box<Around>,
    spotted: &mut Spotted,
) -> Result<Option<Point>, AllocError>
    ensures { IfOk result (λ p. taken_of p ≡ turn (filling (row_of row.value) (map seen_of (items_of got)) (slot_of wanted) (map slot_of later.now) (around_of around.value)) (seen_of spotted.old)) }
{
    if !fits(wanted, &spotted.token) {
        return Ok(None);
    }
    got.push(take_spotted(spotted))?;
    filled_or(alloc, row, got, later, around)
}

/// A token behind the name that begins a statement.
fn behind_name(
    alloc: Global,
    at: Place,
    name: Name,
    around: Box<Around>,
    spotted: &mut Spotted,
) -> Result<Option<Point>, AllocError>
    ensures { IfOk result (λ p. taken_of p ≡ behind_name at (name_bytes name) (around_of around.value) (seen_of spotted.old)) }
{
    if is_left_parenthesis(&spotted.token) {
        let purpose = Purpose::Argument {
            at,
            target: None,
            callee: name,
            before: Sequence::new(alloc),
        };
        return expression(alloc, purpose, around);
    }
    if is_left_bracket(&spotted.token) {
        return expression(alloc, Purpose::Index { at, name }, around);
    }
    change(alloc, at, name, None, around, spotted)
}

/// What a token is to the statements of a body of which the tokens up to `point` have been read. What they keep of one
/// of their tokens, as a name, is moved out of it. It fails only for want of memory.
pub fn turn(alloc: Global, point: Point, spotted: &mut Spotted) -> Result<Turn, AllocError>
    ensures turn { IfOk result (λ t. turn_of t ≡ turn (point_of point) (seen_of spotted.old)) }
    ensures left { IfOk result (λ t. IsLeft t spotted.old spotted.new) }
{
    let point = match point {
        Point::Between { around } => return next(alloc, around, spotted),
        Point::MayElse {
            at,
            condition,
            taken,
            around,
        } => return else_or(alloc, at, condition, taken, around, spotted),
        Point::Filling {
            row,
            got,
            wanted,
            later,
            around,
        } => filling(alloc, row, got, wanted, later, around, spotted)?,
        Point::Inside { reading, around } => within(alloc, reading, around, spotted)?,
        Point::OnName { at, name, around } => behind_name(alloc, at, name, around, spotted)?,
        Point::OnElement {
            at,
            name,
            index,
            around,
        } => change(alloc, at, name, Some(index), around, spotted)?,
    };
    Ok(turned(point))
}
