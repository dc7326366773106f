// Types and the names behind them.
ghost use Rattle.std.specs.Prelude.{◌≡◌, IfOk};
ghost use Rattle.std.specs.Option.{option_map};
ghost use Rattle.prem_syntax.specs.Name.{name_bytes};
ghost use Rattle.prem_text.specs.Lexing.Token.Lexeme.{lexeme_of, seen_of};
ghost use Rattle.prem_text.specs.Grammar.Item.{type_begun, behind_signed, behind_unsigned, type_word, type_in, declared, type_or_name, type_begins, begins_type};
ghost use Rattle.prem_front.specs.StageOf.{typing_of, declared_of, stage_of, step_of};

use crate::stage::{Declared, ItemRow, ItemStep, Stage, Typing};
use prem_list::Sequence;
use prem_reader::statement::{Slot, boxed};
use prem_reader::taken::take_name;
use prem_syntax::{Name, Param, Place, Ty};
use prem_text::lexing::token::{Spotted, Token, Word};
use std::alloc::{AllocError, Global};

/// No tokens.
pub(crate) static NOTHING: [Slot; 0] = [];

fn type_begun(word: Word) -> Option<Typing>
    ensures { option_map typing_of result ≡ type_begun word }
{
    match word {
        Word::Void => Some(Typing::AType { ty: Ty::Void }),
        Word::Int => Some(Typing::AType { ty: Ty::Int }),
        Word::Short => Some(Typing::AType { ty: Ty::Short }),
        Word::Signed => Some(Typing::AfterSigned),
        Word::Unsigned => Some(Typing::AfterUnsigned),
        _ => None,
    }
}

fn behind_signed(word: Word) -> Option<Typing>
    ensures { option_map typing_of result ≡ behind_signed word }
{
    match word {
        Word::Char => Some(Typing::AType { ty: Ty::Schar }),
        _ => None,
    }
}

fn behind_unsigned(word: Word) -> Option<Typing>
    ensures { option_map typing_of result ≡ behind_unsigned word }
{
    match word {
        Word::Int => Some(Typing::AType { ty: Ty::Unsigned }),
        Word::Short => Some(Typing::AType { ty: Ty::Ushort }),
        Word::Char => Some(Typing::AType { ty: Ty::Uchar }),
        _ => None,
    }
}

/// A further word of a type.
fn type_word(typing: Typing, word: Word) -> Option<Typing>
    ensures { option_map typing_of result ≡ type_word (typing_of typing) word }
{
    match typing {
        Typing::NoType => type_begun(word),
        Typing::AfterSigned => behind_signed(word),
        Typing::AfterUnsigned => behind_unsigned(word),
        Typing::AType { .. } => None,
    }
}

/// The type that a name may follow.
fn type_in(typing: Typing) -> Option<Ty>
    ensures { result ≡ type_in (typing_of typing) }
{
    match typing {
        Typing::AfterUnsigned => Some(Ty::Unsigned),
        Typing::AType { ty } => Some(ty),
        Typing::NoType | Typing::AfterSigned => None,
    }
}

/// Behind a type and a name.
fn declared(
    alloc: Global,
    what: Declared,
    ty: Ty,
    at: Place,
    name: Name,
) -> Result<Stage, AllocError>
    ensures { IfOk result (λ s. stage_of s ≡ declared (declared_of what) ty at (name_bytes name)) }
{
    match what {
        Declared::AnItem { mark } => Ok(Stage::BehindItem { mark, ty, at, name }),
        Declared::AParameter { function } => {
            let range = None;
            let param = Param {
                at,
                ty,
                name,
                range,
            };
            Ok(Stage::OnParameter { function, param })
        }
        Declared::ALocal { function } => {
            let row = ItemRow::LocalRow {
                function,
                ty,
                at,
                name,
            };
            Ok(Stage::InRow {
                row: boxed(alloc, row)?,
                got: Sequence::new(alloc),
                wanted: Slot::EqualSign,
                later: &NOTHING,
            })
        }
    }
}

/// A token in a type, or the name behind it.
pub(crate) fn type_or_name(
    alloc: Global,
    what: Box<Declared>,
    typing: Typing,
    spotted: &mut Spotted,
) -> Result<ItemStep, AllocError>
    ensures { IfOk result (λ s. step_of s ≡ type_or_name (declared_of what.value) (typing_of typing) spotted.old.at (lexeme_of spotted.old.token)) }
{
    match &spotted.token {
        Token::Word(word) => Ok(match type_word(typing, *word) {
            Some(typing) => ItemStep::Ahead {
                stage: Stage::InType {
                    declared: what,
                    typing,
                },
            },
            None => ItemStep::Refused,
        }),
        Token::Name(_) => {
            let Some(ty) = type_in(typing) else {
                return Ok(ItemStep::Refused);
            };
            let at = spotted.at;
            let Some(name) = take_name(spotted) else {
                return Ok(ItemStep::Refused);
            };
            let stage = declared(alloc, Box::into_inner(what), ty, at, name)?;
            Ok(ItemStep::Ahead { stage })
        }
        _ => Ok(ItemStep::Refused),
    }
}

/// The first token of a type.
pub(crate) fn type_begins(
    alloc: Global,
    what: Declared,
    spotted: &mut Spotted,
) -> Result<ItemStep, AllocError>
    ensures { IfOk result (λ s. step_of s ≡ type_begins (declared_of what) (seen_of spotted.old)) }
{
    type_or_name(alloc, boxed(alloc, what)?, Typing::NoType, spotted)
}

/// Whether a type begins with a token.
pub(crate) fn begins_type(token: &Token) -> bool
    ensures { result ≡ begins_type (lexeme_of token.now) }
{
    matches!(
        token,
        Token::Word(Word::Void | Word::Int | Word::Short | Word::Signed | Word::Unsigned)
    )
}
