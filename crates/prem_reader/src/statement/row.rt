// Rows of tokens of which no other choice is left.
ghost use Rattle.std.specs.Prelude.{◌≡◌, IfOk, map};
ghost use Rattle.std.specs.Option.{option_map};
ghost use Rattle.prem_syntax.specs.Name.{name_bytes};
ghost use Rattle.prem_text.specs.Lexing.Token.Lexeme.{lexeme_of, seen_of};
ghost use Rattle.prem_text.specs.Grammar.Slots.{text_of, value_of, text_at, value_at, place_at, slot_at};
ghost use Rattle.prem_text.specs.Grammar.Statement.{rest_of_step, step_in, fourth_in, is_at_most};
ghost use Rattle.prem_reader.specs.Statement.SlotOf.{slot_of};

use crate::statement::slot::{Slot, fits, is_less_equal};
use prem_syntax::{Name, Place, copy_name};
use prem_text::lexing::token::{Spotted, Token};
use std::alloc::{AllocError, Global};

/// No tokens.
pub(crate) static NOTHING: [Slot; 0] = [];
/// Behind `BOUNDED (`.
pub(crate) static WHILE_ROW: [Slot; 4] = [
    Slot::ALiteral,
    Slot::RightParenthesis,
    Slot::TheWhile,
    Slot::LeftParenthesis,
];
/// Behind `for (`.
pub(crate) static FOR_ROW: [Slot; 2] = [Slot::AName, Slot::EqualSign];
/// Behind `; name` of a bound.
pub(crate) static BOUND_ROW: [Slot; 1] = [Slot::Comparison];
/// Behind `; name` of a step.
pub(crate) static SIGN_ROW: [Slot; 1] = [Slot::StepSign];
/// Behind `in (`.
pub(crate) static INPUT_ROW: [Slot; 2] = [Slot::RightParenthesis, Slot::Semicolon];
/// Behind `name += literal`.
static CLOSING: [Slot; 1] = [Slot::RightParenthesis];
/// Behind `name = name`.
static SUM: [Slot; 3] = [Slot::PlusSign, Slot::ALiteral, Slot::RightParenthesis];

/// The name that a token is.
fn text_of(alloc: Global, token: &Token) -> Result<Option<Name>, AllocError>
    ensures { IfOk result (λ name. option_map name_bytes name ≡ text_of (lexeme_of token.now)) }
{
    match token {
        Token::Name(name) => Ok(Some(copy_name(alloc, name)?)),
        _ => Ok(None),
    }
}

/// The name at a place of a row, from 0 on, if one stands there. It fails only for want of memory.
#[tactic(auto, using(crate::proofs::StatementLemmas::Rows::text_at_within, crate::proofs::StatementLemmas::Rows::text_at_past))]
pub fn name_at(alloc: Global, got: &[Spotted], at: usize) -> Result<Option<Name>, AllocError>
    ensures { IfOk result (λ name. option_map name_bytes name ≡ text_at at (map seen_of got.now)) }
{
    if at >= got.len() {
        return Ok(None);
    }
    text_of(alloc, &got[at].token)
}

/// The value of a literal.
fn value_of(token: &Token) -> u32
    ensures { result ≡ value_of (lexeme_of token.now) }
{
    match token {
        Token::Literal { value, .. } => *value,
        _ => 0,
    }
}

/// The value of the literal at a place of a row, from 0 on.
#[tactic(auto, using(crate::proofs::StatementLemmas::Rows::value_at_within, crate::proofs::StatementLemmas::Rows::value_at_past))]
pub fn value_at(got: &[Spotted], at: usize) -> u32
    ensures { result ≡ value_at at (map seen_of got.now) }
{
    if at >= got.len() {
        return 0;
    }
    value_of(&got[at].token)
}

/// The place of the token at a place of a row, from 0 on.
#[tactic(auto, using(crate::proofs::StatementLemmas::Rows::place_at_within, crate::proofs::StatementLemmas::Rows::place_at_past))]
pub fn place_at(got: &[Spotted], at: usize) -> Place
    ensures { result ≡ place_at at (map seen_of got.now) }
{
    if at >= got.len() {
        return Place { line: 0, col: 0 };
    }
    got[at].at
}

/// Whether the token at a place of a row, from 0 on, is of a slot.
#[tactic(auto, using(crate::proofs::StatementLemmas::Rows::slot_at_within, crate::proofs::StatementLemmas::Rows::slot_at_past))]
fn slot_at(got: &[Spotted], at: usize, slot: Slot) -> bool
    ensures { result ≡ slot_at at (slot_of slot) (map seen_of got.now) }
{
    if at >= got.len() {
        return false;
    }
    fits(slot, &got[at].token)
}

/// Behind `; name` and the sign of a step: what comes next, and what comes behind that.
pub(crate) fn rest_of_step(got: &[Spotted]) -> (Slot, &'static [Slot])
    ensures { (slot_of result.0, map slot_of result.1.now) ≡ rest_of_step (map seen_of got.now) }
{
    if slot_at(got, 2, Slot::PlusPlus) {
        return (Slot::RightParenthesis, &NOTHING);
    }
    if slot_at(got, 2, Slot::PlusEqual) {
        return (Slot::ALiteral, &CLOSING);
    }
    (Slot::AName, &SUM)
}

/// The number of a step: of `++` it is 1.
pub(crate) fn step_in(got: &[Spotted]) -> u32
    ensures { result ≡ step_in (map seen_of got.now) }
{
    if slot_at(got, 2, Slot::PlusPlus) {
        return 1;
    }
    if slot_at(got, 2, Slot::PlusEqual) {
        return value_at(got, 3);
    }
    value_at(got, 5)
}

/// The last name of a step.
pub(crate) fn fourth_in(alloc: Global, got: &[Spotted]) -> Result<Option<Name>, AllocError>
    ensures { IfOk result (λ name. option_map name_bytes name ≡ fourth_in (map seen_of got.now)) }
{
    if slot_at(got, 2, Slot::EqualSign) {
        return name_at(alloc, got, 3);
    }
    name_at(alloc, got, 1)
}

/// Whether the last token is `<=`.
#[tactic(auto, using(crate::proofs::StatementLemmas::Rows::is_at_most_last))]
pub(crate) fn is_at_most(got: &[Spotted]) -> bool
    ensures { result ≡ is_at_most (map seen_of got.now) }
{
    if got.is_empty() {
        return false;
    }
    is_less_equal(&got[got.len() - 1].token)
}
