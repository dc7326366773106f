// Functions behind their name.
ghost use Rattle.std.specs.Prelude.{◌≡◌, IfOk, map};
ghost use Rattle.prem_list.specs.Sequence.{items_of};
ghost use Rattle.prem_syntax.specs.SyntaxOf.{expression_of, statement_of, parameter_of, local_of, function_of};
ghost use Rattle.prem_text.specs.Lexing.Token.Lexeme.{seen_of};
ghost use Rattle.prem_text.specs.Grammar.Statement.{listed, turn};
ghost use Rattle.prem_text.specs.Grammar.Item.{parameter_begins, parameter_ends, parameter_goes_on, with_local, with_body, with_result, value_begins, body_ends, statement_step, local_begins, value_ends, value_goes_on};
ghost use Rattle.prem_reader.specs.Expression.StateOf.{state_of};
ghost use Rattle.prem_reader.specs.Statement.PointOf.{point_of, turn_of};
ghost use Rattle.prem_front.specs.StageOf.{value_of, stage_of, step_of};

use crate::global::{begin_row, with_parameter};
use crate::stage::{Declared, ItemRow, ItemStep, Stage, Typing, Value, ValueReading};
use crate::typing::{NOTHING, begins_type, type_begins};
use prem_list::Sequence;
use prem_reader::expression::{Move, ROOM, State};
use prem_reader::statement::{
    Around, Point, Slot, Turn, boxed, is_comma, is_right_brace, is_right_parenthesis, is_semicolon,
    turn,
};
use prem_syntax::{Expr, Function, Item, Local, Param, Stmt};
use prem_text::lexing::token::{Spotted, Token, Word};
use std::alloc::{AllocError, Global};

/// Behind `void )`.
static BODY_ROW: [Slot; 1] = [Slot::LeftBrace];

/// The first token between the parentheses; `void` there is the empty list.
pub(crate) fn parameter_begins(
    alloc: Global,
    function: Function,
    spotted: &mut Spotted,
) -> Result<ItemStep, AllocError>
    ensures { IfOk result (λ s. step_of s ≡ parameter_begins (function_of function) (seen_of spotted.old)) }
{
    match &spotted.token {
        Token::Word(Word::Void) => {
            let row = ItemRow::BodyRow { function };
            begin_row(alloc, row, spotted, Slot::RightParenthesis, &BODY_ROW)
        }
        _ => type_begins(alloc, Declared::AParameter { function }, spotted),
    }
}

/// A token behind a parameter.
pub(crate) fn parameter_ends(
    alloc: Global,
    function: Function,
    spotted: &mut Spotted,
) -> Result<ItemStep, AllocError>
    ensures { IfOk result (λ s. step_of s ≡ parameter_ends (function_of function) (seen_of spotted.old)) }
{
    if is_comma(&spotted.token) {
        return Ok(ItemStep::Ahead {
            stage: Stage::InType {
                declared: boxed(alloc, Declared::AParameter { function })?,
                typing: Typing::NoType,
            },
        });
    }
    if !is_right_parenthesis(&spotted.token) {
        return Ok(ItemStep::Refused);
    }
    let row = ItemRow::BodyRow { function };
    begin_row(alloc, row, spotted, Slot::LeftBrace, &NOTHING)
}

/// A token behind the name of a parameter.
pub(crate) fn parameter_goes_on(
    alloc: Global,
    function: Function,
    param: Param,
    spotted: &mut Spotted,
) -> Result<ItemStep, AllocError>
    ensures { IfOk result (λ s. step_of s ≡ parameter_goes_on (function_of function) (parameter_of param) (seen_of spotted.old)) }
{
    match &spotted.token {
        Token::Word(Word::Range) => {
            let row = ItemRow::RangeRow { function, param };
            begin_row(alloc, row, spotted, Slot::LeftParenthesis, &NOTHING)
        }
        _ => {
            let function = with_parameter(function, param)?;
            parameter_ends(alloc, function, spotted)
        }
    }
}

fn with_local(mut function: Function, local: Local) -> Result<Function, AllocError>
    ensures { IfOk result (λ f. function_of f ≡ with_local (function_of function) (local_of local)) }
{
    function.locals.push(local)?;
    Ok(function)
}

#[tactic(auto, using(prem_reader::proofs::StatementLemmas::Blocks::statements_listed))]
pub(crate) fn with_body(mut function: Function, body: Sequence<Stmt>) -> Function
    ensures { function_of result ≡ with_body (function_of function) (listed (map statement_of (items_of body))) }
{
    function.body = body;
    function
}

fn with_result(mut function: Function, value: Expr) -> Function
    ensures { function_of result ≡ with_result (function_of function) (expression_of value) }
{
    function.result = Some(value);
    function
}

/// An expression outside statements is read from its beginning.
pub(crate) fn value_begins(alloc: Global, value: Value) -> Result<Stage, AllocError>
    ensures { IfOk result (λ s. stage_of s ≡ value_begins (value_of value)) }
{
    let reading = ValueReading {
        value,
        state: State::new(alloc),
        room: ROOM,
    };
    let reading = boxed(alloc, reading)?;
    Ok(Stage::InValue { reading })
}

/// A token behind the last statement.
pub(crate) fn body_ends(
    alloc: Global,
    function: Function,
    spotted: &Spotted,
) -> Result<ItemStep, AllocError>
    ensures { IfOk result (λ s. step_of s ≡ body_ends (function_of function) (seen_of spotted.now)) }
{
    match &spotted.token {
        Token::Word(Word::Return) => Ok(ItemStep::Ahead {
            stage: value_begins(alloc, Value::OfResult { function })?,
        }),
        token => {
            if !is_right_brace(token) {
                return Ok(ItemStep::Refused);
            }
            Ok(ItemStep::Made {
                item: Item::Function(function),
            })
        }
    }
}

/// A token that the statements have taken, or left.
fn statement_step(
    alloc: Global,
    function: Function,
    taken: Turn,
    spotted: &Spotted,
) -> Result<ItemStep, AllocError>
    ensures { IfOk result (λ s. step_of s ≡ statement_step (function_of function) (turn_of taken) (seen_of spotted.now)) }
{
    match taken {
        Turn::On { point } => {
            let point = boxed(alloc, point)?;
            Ok(ItemStep::Ahead {
                stage: Stage::InStatements { function, point },
            })
        }
        Turn::Leaves { statements } => body_ends(alloc, with_body(function, statements), spotted),
        Turn::Wrong => Ok(ItemStep::Refused),
    }
}

/// A token before a local or the first statement.
pub(crate) fn local_begins(
    alloc: Global,
    function: Function,
    spotted: &mut Spotted,
) -> Result<ItemStep, AllocError>
    ensures { IfOk result (λ s. step_of s ≡ local_begins (function_of function) (seen_of spotted.old)) }
{
    if begins_type(&spotted.token) {
        return type_begins(alloc, Declared::ALocal { function }, spotted);
    }
    let before = Sequence::new(alloc);
    let around = boxed(alloc, Around::Body { before })?;
    statements_go_on(alloc, function, Point::Between { around }, spotted)
}

/// A token behind the point of a function's statements.
pub(crate) fn statements_go_on(
    alloc: Global,
    function: Function,
    point: Point,
    spotted: &mut Spotted,
) -> Result<ItemStep, AllocError>
    ensures { IfOk result (λ s. step_of s ≡ statement_step (function_of function) (turn (point_of point) (seen_of spotted.old)) (seen_of spotted.old)) }
{
    let taken = turn(alloc, point, spotted)?;
    statement_step(alloc, function, taken, spotted)
}

/// The `;` behind an expression outside statements.
fn value_ends(
    alloc: Global,
    what: Value,
    value: Expr,
    spotted: &mut Spotted,
) -> Result<ItemStep, AllocError>
    ensures { IfOk result (λ s. step_of s ≡ value_ends (value_of what) (expression_of value) (seen_of spotted.old)) }
{
    match what {
        Value::OfLocal {
            function,
            ty,
            at,
            name,
        } => {
            let local = Local {
                at,
                ty,
                name,
                value,
            };
            let function = with_local(function, local)?;
            Ok(ItemStep::Ahead {
                stage: Stage::BeforeLocal { function },
            })
        }
        Value::OfResult { function } => {
            let function = with_result(function, value);
            let row = ItemRow::EndRow { function };
            begin_row(alloc, row, spotted, Slot::RightBrace, &NOTHING)
        }
    }
}

/// A token of an expression outside statements, or the first one behind it.
pub(crate) fn value_goes_on(
    alloc: Global,
    mut reading: Box<ValueReading>,
    spotted: &mut Spotted,
) -> Result<ItemStep, AllocError>
    ensures { IfOk result (λ s. step_of s ≡ value_goes_on (value_of reading.value.value) (state_of reading.value.state) reading.value.room (seen_of spotted.old)) }
{
    match reading.state.advance(alloc, 1, spotted)? {
        Move::Goes => {
            reading.room = reading.room.saturating_sub(1);
            Ok(ItemStep::Ahead {
                stage: Stage::InValue { reading },
            })
        }
        Move::Ends { value } => {
            if !is_semicolon(&spotted.token) {
                return Ok(ItemStep::Refused);
            }
            value_ends(alloc, Box::into_inner(reading).value, value, spotted)
        }
        Move::Stops => Ok(ItemStep::Refused),
    }
}
