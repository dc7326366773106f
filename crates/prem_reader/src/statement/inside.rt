// Expressions in statements: their tokens, and what comes behind them.
ghost use Rattle.std.specs.Prelude.{◌≡◌, ◌≢◌, IfOk, map, if◌then◌else◌, None, Some, []};
ghost use Rattle.std.specs.Option.{option_map};
ghost use Rattle.prem_list.specs.Sequence.{items_of};
ghost use Rattle.prem_syntax.specs.Name.{name_bytes};
ghost use Rattle.prem_syntax.specs.SyntaxOf.{expression_of};
ghost use Rattle.prem_text.specs.Lexing.Token.Lexeme.{lexeme_of, seen_of};
ghost use Rattle.prem_text.specs.Grammar.Slots.{is_left_parenthesis};
ghost use Rattle.prem_text.specs.Grammar.Statement.{for_output, for_index, for_if, for_while, for_low, for_high, for_value, for_argument, least_of, used, at_start, lone_name, called, within};
ghost use Rattle.prem_reader.specs.Expression.StateOf.{state_of};
ghost use Rattle.prem_reader.specs.Statement.PointOf.{around_of, use_of, taken_of};
ghost use Rattle.prem_reader.specs.Statement.Goings.{gone, gone_of, left};

use crate::expression::{Move, State};
use crate::statement::change::{begin, changed, expression, finish};
use crate::statement::nesting::statement_ends;
use crate::statement::point::{Around, Going, Header, Point, Purpose, Reading, Row, boxed};
use crate::statement::row::{BOUND_ROW, INPUT_ROW, SIGN_ROW};
use crate::statement::slot::{
    Slot, is_comma, is_in, is_left_parenthesis, is_right_bracket, is_right_parenthesis,
    is_semicolon,
};
use prem_list::Sequence;
use prem_syntax::{Expr, Name, Place, Stmt};
use prem_text::lexing::token::{Spotted, Token};
use std::alloc::{AllocError, Global};

/// The level of the operators of a `for`'s bound, `<<` and `>>`: looser ones don't belong to it.
const SHIFT_LEVEL: u32 = 8;

fn least_of(purpose: &Purpose) -> u32
    ensures { result ≡ least_of (use_of purpose.now) }
{
    match purpose {
        Purpose::High { .. } => SHIFT_LEVEL,
        _ => 1,
    }
}

/// A token behind an argument of a call.
fn argument_ends(
    alloc: Global,
    at: Place,
    target: Option<Name>,
    callee: Name,
    mut before: Sequence<Expr>,
    value: Expr,
    around: Box<Around>,
    spotted: &mut Spotted,
) -> Result<Option<Point>, AllocError>
    ensures { IfOk result (λ p. taken_of p ≡ used (for_argument at (option_map name_bytes target) (name_bytes callee) (map expression_of (items_of before))) (expression_of value) (around_of around.value) (seen_of spotted.old)) }
{
    before.push(value)?;
    if is_comma(&spotted.token) {
        let purpose = Purpose::Argument {
            at,
            target,
            callee,
            before,
        };
        return expression(alloc, purpose, around);
    }
    if !is_right_parenthesis(&spotted.token) {
        return Ok(None);
    }
    let whole = Stmt::Call {
        at,
        target,
        callee,
        args: before,
    };
    finish(alloc, whole, spotted, around)
}

/// A token behind the condition of an `if`, or of a `while` where it has a number of turns.
fn condition_ends(
    alloc: Global,
    at: Place,
    turns: Option<u32>,
    condition: Expr,
    around: Box<Around>,
    spotted: &Spotted,
) -> Result<Option<Point>, AllocError>
    ensures { IfOk result (λ p. taken_of p ≡ used (elim turns [ None ↦ for_if at | Some n ↦ for_while at n ]) (expression_of condition) (around_of around.value) (seen_of spotted.now)) }
{
    if !is_right_parenthesis(&spotted.token) {
        return Ok(None);
    }
    let around = match turns {
        None => Around::Taken {
            at,
            condition,
            around,
        },
        Some(turns) => Around::While {
            at,
            turns,
            condition,
            around,
        },
    };
    let around = boxed(alloc, around)?;
    Ok(Some(Point::Between { around }))
}

/// A token behind the first value of a `for`.
fn low_ends(
    alloc: Global,
    at: Place,
    first: Name,
    low: Expr,
    around: Box<Around>,
    spotted: &mut Spotted,
) -> Result<Option<Point>, AllocError>
    ensures { IfOk result (λ p. taken_of p ≡ used (for_low at (name_bytes first)) (expression_of low) (around_of around.value) (seen_of spotted.old)) }
{
    if !is_semicolon(&spotted.token) {
        return Ok(None);
    }
    let row = Row::Bound { at, first, low };
    begin(alloc, row, spotted, Slot::AName, &BOUND_ROW, around)
}

/// A token behind the bound of a `for`.
fn high_ends(
    alloc: Global,
    header: Header,
    around: Box<Around>,
    spotted: &mut Spotted,
) -> Result<Option<Point>, AllocError>
    ensures { IfOk result (λ p. taken_of p ≡ used (for_high header.at (name_bytes header.first) (expression_of header.low) (name_bytes header.second) header.closed) (expression_of header.high) (around_of around.value) (seen_of spotted.old)) }
{
    if !is_semicolon(&spotted.token) {
        return Ok(None);
    }
    let row = Row::Sign { header };
    begin(alloc, row, spotted, Slot::AName, &SIGN_ROW, around)
}

/// A token behind the value of an output.
fn output_ends(
    alloc: Global,
    at: Place,
    value: Expr,
    around: Box<Around>,
    spotted: &mut Spotted,
) -> Result<Option<Point>, AllocError>
    ensures { IfOk result (λ p. taken_of p ≡ used (for_output at) (expression_of value) (around_of around.value) (seen_of spotted.old)) }
{
    if !is_right_parenthesis(&spotted.token) {
        return Ok(None);
    }
    finish(alloc, Stmt::Output { at, value }, spotted, around)
}

/// A token behind the index at the left of an assignment.
fn index_ends(
    at: Place,
    name: Name,
    index: Expr,
    around: Box<Around>,
    spotted: &Spotted,
) -> Option<Point>
    ensures { taken_of result ≡ used (for_index at (name_bytes name)) (expression_of index) (around_of around.value) (seen_of spotted.now) }
{
    if !is_right_bracket(&spotted.token) {
        return None;
    }
    Some(Point::OnElement {
        at,
        name,
        index,
        around,
    })
}

/// A token behind the right side of `=`.
fn value_ends(
    alloc: Global,
    at: Place,
    name: Name,
    index: Option<Expr>,
    value: Expr,
    around: Box<Around>,
    spotted: &Spotted,
) -> Result<Option<Point>, AllocError>
    ensures { IfOk result (λ p. taken_of p ≡ used (for_value at (name_bytes name) (option_map expression_of index)) (expression_of value) (around_of around.value) (seen_of spotted.now)) }
{
    if !is_semicolon(&spotted.token) {
        return Ok(None);
    }
    let whole = Stmt::Set {
        at,
        name,
        index,
        value,
    };
    statement_ends(alloc, around, whole)
}

/// The token behind an expression.
fn used(
    alloc: Global,
    purpose: Purpose,
    value: Expr,
    around: Box<Around>,
    spotted: &mut Spotted,
) -> Result<Option<Point>, AllocError>
    ensures { IfOk result (λ p. taken_of p ≡ used (use_of purpose) (expression_of value) (around_of around.value) (seen_of spotted.old)) }
{
    match purpose {
        Purpose::Output { at } => output_ends(alloc, at, value, around, spotted),
        Purpose::If { at } => condition_ends(alloc, at, None, value, around, spotted),
        Purpose::While { at, turns } => {
            condition_ends(alloc, at, Some(turns), value, around, spotted)
        }
        Purpose::Low { at, first } => low_ends(alloc, at, first, value, around, spotted),
        Purpose::High {
            at,
            first,
            low,
            second,
            closed,
        } => {
            let high = value;
            let header = Header {
                at,
                first,
                low,
                second,
                closed,
                high,
            };
            high_ends(alloc, header, around, spotted)
        }
        Purpose::Index { at, name } => Ok(index_ends(at, name, value, around, spotted)),
        Purpose::Value { at, name, index } => {
            value_ends(alloc, at, name, index, value, around, spotted)
        }
        Purpose::Change {
            at,
            name,
            index,
            op,
            sign,
        } => {
            if !is_semicolon(&spotted.token) {
                return Ok(None);
            }
            let whole = changed(alloc, at, name, index, op, sign, value)?;
            statement_ends(alloc, around, whole)
        }
        Purpose::Argument {
            at,
            target,
            callee,
            before,
        } => { argument_ends(alloc, at, target, callee, before, value, around, spotted) }
    }
}

/// `in` where the value of `name =` begins.
fn input_begins(
    alloc: Global,
    at: Place,
    name: Name,
    around: Box<Around>,
    spotted: &mut Spotted,
) -> Result<Option<Point>, AllocError>
    ensures { IfOk result (λ p. taken_of p ≡ at_start (for_value at (name_bytes name) None) (around_of around.value) (seen_of spotted.old)) }
{
    if !is_in(&spotted.token) {
        return Ok(None);
    }
    let statement = boxed(alloc, Stmt::Input { at, name })?;
    let row = Row::Last { statement };
    begin(
        alloc,
        row,
        spotted,
        Slot::LeftParenthesis,
        &INPUT_ROW,
        around,
    )
}

/// `)` where the first argument of a call begins.
fn no_arguments(
    alloc: Global,
    at: Place,
    target: Option<Name>,
    callee: Name,
    around: Box<Around>,
    spotted: &mut Spotted,
) -> Result<Option<Point>, AllocError>
    ensures { IfOk result (λ p. taken_of p ≡ at_start (for_argument at (option_map name_bytes target) (name_bytes callee) []) (around_of around.value) (seen_of spotted.old)) }
{
    if !is_right_parenthesis(&spotted.token) {
        return Ok(None);
    }
    let whole = Stmt::Call {
        at,
        target,
        callee,
        args: Sequence::new(alloc),
    };
    finish(alloc, whole, spotted, around)
}

/// Where no expression has a token at its beginning: `in` behind `name =`, and `)` where a call has no
/// arguments.
#[tactic(auto, using(crate::proofs::StatementLemmas::Starts::no_argument, crate::proofs::StatementLemmas::Starts::another_argument))]
fn at_start(
    alloc: Global,
    purpose: Purpose,
    around: Box<Around>,
    spotted: &mut Spotted,
) -> Result<Option<Point>, AllocError>
    ensures { IfOk result (λ p. taken_of p ≡ at_start (use_of purpose) (around_of around.value) (seen_of spotted.old)) }
{
    match purpose {
        Purpose::Value { at, name, index } => match index {
            None => input_begins(alloc, at, name, around, spotted),
            Some(_index) => Ok(None),
        },
        Purpose::Argument {
            at,
            target,
            callee,
            before,
        } => match before.items() {
            [] => no_arguments(alloc, at, target, callee, around, spotted),
            [_, ..] => Ok(None),
        },
        Purpose::Output { .. }
        | Purpose::If { .. }
        | Purpose::While { .. }
        | Purpose::Low { .. }
        | Purpose::High { .. }
        | Purpose::Index { .. }
        | Purpose::Change { .. } => Ok(None),
    }
}

/// The name that is all of an expression, where the token behind it is `(`.
fn callee_at(alloc: Global, state: &State, token: &Token) -> Result<Option<Name>, AllocError>
    ensures { IfOk result (λ name. option_map name_bytes name ≡ (if is_left_parenthesis (lexeme_of token.now) then lone_name (state_of state.now) else None)) }
{
    if !is_left_parenthesis(token) {
        return Ok(None);
    }
    state.lone_name(alloc)
}

/// `(` behind `name = name` begins the arguments of a call.
fn called(
    alloc: Global,
    purpose: Purpose,
    callee: Name,
    around: Box<Around>,
) -> Result<Option<Point>, AllocError>
    ensures { IfOk result (λ p. taken_of p ≡ called (use_of purpose) (name_bytes callee) (around_of around.value)) }
{
    match purpose {
        Purpose::Value { at, name, index } => match index {
            None => {
                let purpose = Purpose::Argument {
                    at,
                    target: Some(name),
                    callee,
                    before: Sequence::new(alloc),
                };
                expression(alloc, purpose, around)
            }
            Some(_index) => Ok(None),
        },
        Purpose::Output { .. }
        | Purpose::If { .. }
        | Purpose::While { .. }
        | Purpose::Low { .. }
        | Purpose::High { .. }
        | Purpose::Index { .. }
        | Purpose::Change { .. }
        | Purpose::Argument { .. } => Ok(None),
    }
}

/// What a token is to an expression that is read, which goes on with it in place where it is one of its tokens: a name is
/// then moved out of it. It fails only for want of memory.
#[inline(always)]
pub fn go_on(
    alloc: Global,
    reading: &mut Reading,
    spotted: &mut Spotted,
) -> Result<Going, AllocError>
    ensures gone { IfOk result (λ g. gone_of g reading.new ≡ gone (least_of (use_of reading.old.purpose)) (state_of reading.old.state) reading.old.room (seen_of spotted.old)) }
    ensures purpose { reading.new.purpose ≡ reading.old.purpose }
    ensures kept { IfOk result (λ g. g ≢ Going.On → spotted.new ≡ spotted.old) }
{
    let first = reading.state.is_start();
    let callee = callee_at(alloc, &reading.state, &spotted.token)?;
    let least = least_of(&reading.purpose);
    match reading.state.advance(alloc, least, spotted)? {
        Move::Goes => {
            reading.room = reading.room.saturating_sub(1);
            Ok(Going::On)
        }
        Move::Ends { value } => Ok(Going::Ends { value, callee }),
        Move::Stops => Ok(Going::Stops { first }),
    }
}

/// The point behind what a token was to an expression that is read, where a body has it. It fails only for want of memory.
pub fn behind(
    alloc: Global,
    reading: Box<Reading>,
    around: Box<Around>,
    going: Going,
    spotted: &mut Spotted,
) -> Result<Option<Point>, AllocError>
    ensures { IfOk result (λ p. taken_of p ≡ left (use_of reading.value.purpose) (gone_of going reading.value) (around_of around.value) (seen_of spotted.old)) }
{
    match going {
        Going::On => Ok(Some(Point::Inside { reading, around })),
        Going::Ends { value, callee } => {
            let purpose = Box::into_inner(reading).purpose;
            if !is_left_parenthesis(&spotted.token) {
                return used(alloc, purpose, value, around, spotted);
            }
            match callee {
                Some(callee) => called(alloc, purpose, callee, around),
                None => Ok(None),
            }
        }
        Going::Stops { first } => {
            if first {
                return at_start(alloc, Box::into_inner(reading).purpose, around, spotted);
            }
            Ok(None)
        }
    }
}

/// A token of an expression, or the first one behind it.
pub(crate) fn within(
    alloc: Global,
    mut reading: Box<Reading>,
    around: Box<Around>,
    spotted: &mut Spotted,
) -> Result<Option<Point>, AllocError>
    ensures { IfOk result (λ p. taken_of p ≡ within (use_of reading.value.purpose) (state_of reading.value.state) reading.value.room (around_of around.value) (seen_of spotted.old)) }
{
    let going = go_on(alloc, &mut reading, spotted)?;
    behind(alloc, reading, around, going, spotted)
}
