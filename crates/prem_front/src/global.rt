// Globals and constants.
ghost use Rattle.std.specs.Prelude.{◌≡◌, IfOk, map};
ghost use Rattle.std.specs.Option.{option_map};
ghost use Rattle.prem_list.specs.Sequence.{items_of};
ghost use Rattle.prem_syntax.specs.Name.{name_bytes};
ghost use Rattle.prem_syntax.specs.SyntaxOf.{mark_of, global_of, initial_of, parameter_of, function_of};
ghost use Rattle.prem_text.specs.Lexing.Token.Lexeme.{lexeme_of, seen_of};
ghost use Rattle.prem_text.specs.Grammar.Item.{begin_row, scalar, with_length, with_initial, global_ends, new_function, global_or, item_goes_on, constant_of as number_of, minus_once, constant, constant_ends, range_high, only_value, with_parameter, with_range, next_value, initial_begins};
ghost use Rattle.prem_reader.specs.Statement.SlotOf.{slot_of};
ghost use Rattle.prem_front.specs.StageOf.{row_of, constant_of, step_of};

use crate::stage::{Constant, ItemRow, ItemStep, Stage};
use crate::typing::NOTHING;
use prem_list::Sequence;
use prem_reader::statement::{
    Slot, boxed, is_comma, is_equal, is_left_brace, is_left_bracket, is_left_parenthesis,
    is_right_brace, is_right_parenthesis, is_semicolon,
};
use prem_reader::taken::take_spotted;
use prem_syntax::{Function, Global as Variable, Initial, Item, Mark, Name, Param, Place, Ty};
use prem_text::lexing::token::{Mark as Sign, Spotted, Token};
use std::alloc::{AllocError, Global};

/// Behind `[ literal`.
static LENGTH_ROW: [Slot; 1] = [Slot::RightBracket];

/// A row begins with a token.
pub(crate) fn begin_row(
    alloc: Global,
    row: ItemRow,
    spotted: &mut Spotted,
    wanted: Slot,
    later: &'static [Slot],
) -> Result<ItemStep, AllocError>
    ensures { IfOk result (λ s. step_of s ≡ begin_row (row_of row) (seen_of spotted.old) (slot_of wanted) (map slot_of later.now)) }
{
    let row = boxed(alloc, row)?;
    let mut got = Sequence::new(alloc);
    got.push(take_spotted(spotted))?;
    Ok(ItemStep::Ahead {
        stage: Stage::InRow {
            row,
            got,
            wanted,
            later,
        },
    })
}

/// A global without a length and an initial value.
fn scalar(ty: Ty, at: Place, name: Name) -> Variable
    ensures { global_of result ≡ scalar ty at (name_bytes name) }
{
    Variable {
        at,
        ty,
        name,
        len: None,
        initial: Initial::Absent,
    }
}

/// A global with a length.
pub(crate) fn with_length(global: Variable, len: u32) -> Variable
    ensures { global_of result ≡ with_length (global_of global) len }
{
    Variable {
        at: global.at,
        ty: global.ty,
        name: global.name,
        len: Some(len),
        initial: global.initial,
    }
}

fn with_initial(global: Variable, initial: Initial) -> Variable
    ensures { global_of result ≡ with_initial (global_of global) (initial_of initial) }
{
    Variable {
        at: global.at,
        ty: global.ty,
        name: global.name,
        len: global.len,
        initial,
    }
}

/// A token behind the name or the length of a global.
pub(crate) fn global_ends(global: Variable, spotted: &Spotted) -> ItemStep
    ensures { step_of result ≡ global_ends (global_of global) (seen_of spotted.now) }
{
    if is_equal(&spotted.token) {
        return ItemStep::Ahead {
            stage: Stage::BeforeInitial { global },
        };
    }
    if is_semicolon(&spotted.token) {
        return ItemStep::Made {
            item: Item::Global(global),
        };
    }
    ItemStep::Refused
}

/// A function of which only the beginning is read.
fn new_function(alloc: Global, mark: Option<Mark>, ty: Ty, at: Place, name: Name) -> Function
    ensures { function_of result ≡ new_function (option_map mark_of mark) ty at (name_bytes name) }
{
    Function {
        at,
        mark,
        ty,
        name,
        params: Sequence::new(alloc),
        locals: Sequence::new(alloc),
        body: Sequence::new(alloc),
        result: None,
    }
}

/// A token behind the name of a global; behind a mark there is none.
fn global_or(
    alloc: Global,
    mark: Option<Mark>,
    ty: Ty,
    at: Place,
    name: Name,
    spotted: &mut Spotted,
) -> Result<ItemStep, AllocError>
    ensures { IfOk result (λ s. step_of s ≡ global_or (option_map mark_of mark) ty at (name_bytes name) (seen_of spotted.old)) }
{
    if mark.is_some() {
        return Ok(ItemStep::Refused);
    }
    let global = scalar(ty, at, name);
    if is_left_bracket(&spotted.token) {
        let row = ItemRow::LengthRow { global };
        return begin_row(alloc, row, spotted, Slot::ALiteral, &LENGTH_ROW);
    }
    Ok(global_ends(global, spotted))
}

/// A token behind the name of an item.
pub(crate) fn item_goes_on(
    alloc: Global,
    mark: Option<Mark>,
    ty: Ty,
    at: Place,
    name: Name,
    spotted: &mut Spotted,
) -> Result<ItemStep, AllocError>
    ensures { IfOk result (λ s. step_of s ≡ item_goes_on (option_map mark_of mark) ty at (name_bytes name) (seen_of spotted.old)) }
{
    if is_left_parenthesis(&spotted.token) {
        let function = new_function(alloc, mark, ty, at, name);
        return Ok(ItemStep::Ahead {
            stage: Stage::BeforeParameter { function },
        });
    }
    global_or(alloc, mark, ty, at, name, spotted)
}

/// The whole number of a literal, made negative by `-`.
fn number_of(negative: bool, value: u32) -> i64
    ensures { result ≡ number_of negative value }
{
    if negative {
        -i64::from(value)
    } else {
        i64::from(value)
    }
}

/// The `-` of a constant stands once.
fn minus_once(what: Constant, negative: bool) -> ItemStep
    ensures { step_of result ≡ minus_once (constant_of what) negative }
{
    if negative {
        return ItemStep::Refused;
    }
    ItemStep::Ahead {
        stage: Stage::BeforeConstant {
            constant: what,
            negative: true,
        },
    }
}

/// A token of a constant.
pub(crate) fn constant(what: Constant, negative: bool, token: &Token) -> ItemStep
    ensures { step_of result ≡ constant (constant_of what) negative (lexeme_of token.now) }
{
    match token {
        Token::Literal { value, .. } => ItemStep::Ahead {
            stage: Stage::BehindConstant {
                constant: what,
                value: number_of(negative, *value),
            },
        },
        Token::Mark(Sign::Minus) => minus_once(what, negative),
        _ => ItemStep::Refused,
    }
}

/// A function with one more parameter.
pub(crate) fn with_parameter(mut function: Function, param: Param) -> Result<Function, AllocError>
    ensures { IfOk result (λ f. function_of f ≡ with_parameter (function_of function) (parameter_of param)) }
{
    function.params.push(param)?;
    Ok(function)
}

fn with_range(param: Param, low: i64, high: i64) -> Param
    ensures { parameter_of result ≡ with_range (parameter_of param) low high }
{
    Param {
        at: param.at,
        ty: param.ty,
        name: param.name,
        range: Some((low, high)),
    }
}

/// A token behind an element of a list of constants.
fn element_ends(
    alloc: Global,
    global: Variable,
    mut before: Sequence<i64>,
    value: i64,
    spotted: &mut Spotted,
) -> Result<ItemStep, AllocError>
    ensures { IfOk result (λ s. step_of s ≡ constant_ends (next_value (global_of global) (items_of before)) value (seen_of spotted.old)) }
{
    before.push(value)?;
    if is_comma(&spotted.token) {
        let constant = Constant::NextValue { global, before };
        return Ok(ItemStep::Ahead {
            stage: Stage::BeforeConstant {
                constant,
                negative: false,
            },
        });
    }
    if !is_right_brace(&spotted.token) {
        return Ok(ItemStep::Refused);
    }
    let initial = Initial::Many { values: before };
    let global = with_initial(global, initial);
    let row = ItemRow::GlobalRow { global };
    begin_row(alloc, row, spotted, Slot::Semicolon, &NOTHING)
}

/// A token behind the upper limit of a parameter's range.
fn range_ends(
    function: Function,
    param: Param,
    low: i64,
    high: i64,
    spotted: &Spotted,
) -> Result<ItemStep, AllocError>
    ensures { IfOk result (λ s. step_of s ≡ constant_ends (range_high (function_of function) (parameter_of param) low) high (seen_of spotted.now)) }
{
    if !is_right_parenthesis(&spotted.token) {
        return Ok(ItemStep::Refused);
    }
    let function = with_parameter(function, with_range(param, low, high))?;
    Ok(ItemStep::Ahead {
        stage: Stage::BehindParameter { function },
    })
}

/// A token behind the initial value of a scalar.
fn scalar_ends(global: Variable, value: i64, spotted: &Spotted) -> ItemStep
    ensures { step_of result ≡ constant_ends (only_value (global_of global)) value (seen_of spotted.now) }
{
    if !is_semicolon(&spotted.token) {
        return ItemStep::Refused;
    }
    let global = with_initial(global, Initial::One { value });
    ItemStep::Made {
        item: Item::Global(global),
    }
}

/// A token behind a constant.
pub(crate) fn constant_ends(
    alloc: Global,
    what: Constant,
    value: i64,
    spotted: &mut Spotted,
) -> Result<ItemStep, AllocError>
    ensures { IfOk result (λ s. step_of s ≡ constant_ends (constant_of what) value (seen_of spotted.old)) }
{
    match what {
        Constant::RangeLow { function, param } => {
            if !is_comma(&spotted.token) {
                return Ok(ItemStep::Refused);
            }
            let low = value;
            let constant = Constant::RangeHigh {
                function,
                param,
                low,
            };
            Ok(ItemStep::Ahead {
                stage: Stage::BeforeConstant {
                    constant,
                    negative: false,
                },
            })
        }
        Constant::RangeHigh {
            function,
            param,
            low,
        } => range_ends(function, param, low, value, spotted),
        Constant::OnlyValue { global } => Ok(scalar_ends(global, value, spotted)),
        Constant::NextValue { global, before } => {
            element_ends(alloc, global, before, value, spotted)
        }
    }
}

/// The first token of an initial value.
pub(crate) fn initial_begins(alloc: Global, global: Variable, spotted: &Spotted) -> ItemStep
    ensures { step_of result ≡ initial_begins (global_of global) (seen_of spotted.now) }
{
    if is_left_brace(&spotted.token) {
        let constant = Constant::NextValue {
            global,
            before: Sequence::new(alloc),
        };
        return ItemStep::Ahead {
            stage: Stage::BeforeConstant {
                constant,
                negative: false,
            },
        };
    }
    constant(Constant::OnlyValue { global }, false, &spotted.token)
}
