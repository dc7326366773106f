// The mark of a predictable function.
ghost use Rattle.std.specs.Prelude.{◌≡◌, IfOk, map};
ghost use Rattle.prem_syntax.specs.SyntaxOf.{mark_of, region_of};
ghost use Rattle.prem_text.specs.Lexing.Token.Lexeme.{seen_of};
ghost use Rattle.prem_text.specs.Grammar.Item.{item_begins, behind_mark, with_region, row_ends, mark_row, region_row};
ghost use Rattle.prem_front.specs.StageOf.{step_of};

use crate::global::begin_row;
use crate::stage::{Declared, ItemRow, ItemStep, Stage};
use crate::typing::type_begins;
use prem_list::Sequence;
use prem_reader::statement::{Slot, name_at, place_at, value_at};
use prem_syntax::{Mark, Region};
use prem_text::lexing::token::{Spotted, Token, Word};
use std::alloc::{AllocError, Global};

/// Behind `PREDICTABLE (`.
static MARK_ROW: [Slot; 2] = [Slot::ALiteral, Slot::RightParenthesis];
/// Behind `REGION (`.
static REGION_ROW: [Slot; 6] = [
    Slot::AName,
    Slot::Comma,
    Slot::ALiteral,
    Slot::Comma,
    Slot::ALiteral,
    Slot::RightParenthesis,
];

/// A token before an item.
pub(crate) fn item_begins(alloc: Global, spotted: &mut Spotted) -> Result<ItemStep, AllocError>
    ensures { IfOk result (λ s. step_of s ≡ item_begins (seen_of spotted.old)) }
{
    match &spotted.token {
        Token::End => Ok(ItemStep::Ahead {
            stage: Stage::Finished,
        }),
        Token::Word(Word::Predictable) => begin_row(
            alloc,
            ItemRow::MarkRow,
            spotted,
            Slot::LeftParenthesis,
            &MARK_ROW,
        ),
        _ => type_begins(alloc, Declared::AnItem { mark: None }, spotted),
    }
}

/// A token behind a mark and some of its regions.
pub(crate) fn behind_mark(
    alloc: Global,
    mark: Mark,
    spotted: &mut Spotted,
) -> Result<ItemStep, AllocError>
    ensures { IfOk result (λ s. step_of s ≡ behind_mark (mark_of mark) (seen_of spotted.old)) }
{
    match &spotted.token {
        Token::Word(Word::Region) => begin_row(
            alloc,
            ItemRow::RegionRow { mark },
            spotted,
            Slot::LeftParenthesis,
            &REGION_ROW,
        ),
        _ => type_begins(alloc, Declared::AnItem { mark: Some(mark) }, spotted),
    }
}

/// A mark with one more region.
fn with_region(mut mark: Mark, region: Region) -> Result<Mark, AllocError>
    ensures { IfOk result (λ m. mark_of m ≡ with_region (mark_of mark) (region_of region)) }
{
    mark.regions.push(region)?;
    Ok(mark)
}

/// `PREDICTABLE ( literal )` has all its tokens.
pub(crate) fn mark_ends(alloc: Global, got: &[Spotted]) -> ItemStep
    ensures { step_of result ≡ row_ends mark_row (map seen_of got.now) }
{
    let mark = Mark {
        stated: value_at(got, 2),
        regions: Sequence::new(alloc),
    };
    ItemStep::Ahead {
        stage: Stage::Marked { mark },
    }
}

/// `REGION ( name , literal , literal )` has all its tokens.
pub(crate) fn region_ends(
    alloc: Global,
    mark: Mark,
    got: &[Spotted],
) -> Result<ItemStep, AllocError>
    ensures { IfOk result (λ s. step_of s ≡ row_ends (region_row (mark_of mark)) (map seen_of got.now)) }
{
    let Some(name) = name_at(alloc, got, 2)? else {
        return Ok(ItemStep::Refused);
    };
    let region = Region {
        at: place_at(got, 2),
        name,
        low: value_at(got, 4),
        high: value_at(got, 6),
    };
    let mark = with_region(mark, region)?;
    Ok(ItemStep::Ahead {
        stage: Stage::Marked { mark },
    })
}
