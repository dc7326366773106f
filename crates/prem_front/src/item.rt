// Reading the items of a program, one token after the other.
ghost use Rattle.std.specs.Prelude.{◌≡◌, IfOk, map};
ghost use Rattle.prem_list.specs.Sequence.{items_of};
ghost use Rattle.prem_text.specs.Lexing.Token.Lexeme.{seen_of};
ghost use Rattle.prem_text.specs.Grammar.Item.{in_row, row_ends, row_goes_on, step, is_too_deep};
ghost use Rattle.prem_reader.specs.Statement.SlotOf.{slot_of};
ghost use Rattle.prem_front.specs.StageOf.{row_of, stage_of, step_of};

use crate::annotation::{behind_mark, item_begins, mark_ends, region_ends};
use crate::function::{
    local_begins, parameter_begins, parameter_ends, parameter_goes_on, statements_go_on,
    value_begins, value_goes_on,
};
use crate::global::{
    constant, constant_ends, global_ends, initial_begins, item_goes_on, with_length,
};
use crate::stage::{Constant, ItemRow, ItemStep, Stage, Value};
use crate::typing::type_or_name;
use prem_list::Sequence;
use prem_reader::statement::{Slot, fits, is_past, value_at};
use prem_reader::taken::take_spotted;
use prem_syntax::Item;
use prem_text::lexing::token::Spotted;
use std::alloc::{AllocError, Global};

/// A row has all its tokens.
fn row_ends(alloc: Global, row: ItemRow, got: &[Spotted]) -> Result<ItemStep, AllocError>
    ensures { IfOk result (λ s. step_of s ≡ row_ends (row_of row) (map seen_of got.now)) }
{
    let stage = match row {
        ItemRow::MarkRow => return Ok(mark_ends(alloc, got)),
        ItemRow::RegionRow { mark } => return region_ends(alloc, mark, got),
        ItemRow::GlobalRow { global } => {
            return Ok(ItemStep::Made {
                item: Item::Global(global),
            });
        }
        ItemRow::EndRow { function } => {
            return Ok(ItemStep::Made {
                item: Item::Function(function),
            });
        }
        ItemRow::LengthRow { global } => Stage::BehindGlobal {
            global: with_length(global, value_at(got, 1)),
        },
        ItemRow::BodyRow { function } => Stage::BeforeLocal { function },
        ItemRow::RangeRow { function, param } => Stage::BeforeConstant {
            constant: Constant::RangeLow { function, param },
            negative: false,
        },
        ItemRow::LocalRow {
            function,
            ty,
            at,
            name,
        } => {
            let value = Value::OfLocal {
                function,
                ty,
                at,
                name,
            };
            value_begins(alloc, value)?
        }
    };
    Ok(ItemStep::Ahead { stage })
}

fn row_goes_on(
    alloc: Global,
    row: Box<ItemRow>,
    got: Sequence<Spotted>,
    later: &'static [Slot],
) -> Result<ItemStep, AllocError>
    ensures { IfOk result (λ s. step_of s ≡ row_goes_on (row_of row.value) (map seen_of (items_of got)) (map slot_of later.now)) }
{
    match later {
        [] => row_ends(alloc, Box::into_inner(row), got.items()),
        [wanted, rest @ ..] => Ok(ItemStep::Ahead {
            stage: Stage::InRow {
                row,
                got,
                wanted: *wanted,
                later: rest,
            },
        }),
    }
}

/// A token in a row.
fn in_row(
    alloc: Global,
    row: Box<ItemRow>,
    mut got: Sequence<Spotted>,
    wanted: Slot,
    later: &'static [Slot],
    spotted: &mut Spotted,
) -> Result<ItemStep, AllocError>
    ensures { IfOk result (λ s. step_of s ≡ step (in_row (row_of row.value) (map seen_of (items_of got)) (slot_of wanted) (map slot_of later.now)) (seen_of spotted.old)) }
{
    if !fits(wanted, &spotted.token) {
        return Ok(ItemStep::Refused);
    }
    got.push(take_spotted(spotted))?;
    row_goes_on(alloc, row, got, later)
}

/// What a token is to the program of which the tokens up to `stage` have been read.
pub(crate) fn step(
    alloc: Global,
    stage: Stage,
    spotted: &mut Spotted,
) -> Result<ItemStep, AllocError>
    ensures { IfOk result (λ s. step_of s ≡ step (stage_of stage) (seen_of spotted.old)) }
{
    match stage {
        Stage::Outside => item_begins(alloc, spotted),
        Stage::Marked { mark } => behind_mark(alloc, mark, spotted),
        Stage::InRow {
            row,
            got,
            wanted,
            later,
        } => { in_row(alloc, row, got, wanted, later, spotted) }
        Stage::InType { declared, typing } => type_or_name(alloc, declared, typing, spotted),
        Stage::BehindItem { mark, ty, at, name } => {
            item_goes_on(alloc, mark, ty, at, name, spotted)
        }
        Stage::BehindGlobal { global } => Ok(global_ends(global, spotted)),
        Stage::BeforeInitial { global } => Ok(initial_begins(alloc, global, spotted)),
        Stage::BeforeConstant {
            constant: what,
            negative,
        } => { Ok(constant(what, negative, &spotted.token)) }
        Stage::BehindConstant { constant, value } => {
            constant_ends(alloc, constant, value, spotted)
        }
        Stage::BeforeParameter { function } => parameter_begins(alloc, function, spotted),
        Stage::OnParameter { function, param } => {
            parameter_goes_on(alloc, function, param, spotted)
        }
        Stage::BehindParameter { function } => parameter_ends(alloc, function, spotted),
        Stage::BeforeLocal { function } => local_begins(alloc, function, spotted),
        Stage::InStatements { function, point } => {
            statements_go_on(alloc, function, Box::into_inner(point), spotted)
        }
        Stage::InValue { reading } => value_goes_on(alloc, reading, spotted),
        Stage::Finished => Ok(ItemStep::Refused),
    }
}

/// Whether the last token was the 257th of an expression, or the first one of a statement of nesting 65.
pub(crate) fn is_too_deep(stage: &Stage) -> bool
    ensures { result ≡ is_too_deep (stage_of stage.now) }
{
    match stage {
        Stage::InStatements { point, .. } => is_past(point),
        Stage::InValue { reading } => reading.room == 0,
        _ => false,
    }
}
