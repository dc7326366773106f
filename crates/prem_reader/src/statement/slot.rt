// The tokens that a place in a row may have.
ghost use Rattle.std.specs.Prelude.{◌≡◌};
ghost use Rattle.prem_text.specs.Lexing.Token.Lexeme.{lexeme_of};
ghost use Rattle.prem_text.specs.Grammar.Slots.{fits, is_left_parenthesis, is_right_parenthesis, is_left_brace, is_right_brace, is_left_bracket, is_right_bracket, is_semicolon, is_comma, is_equal, is_plus, is_plus_plus, is_plus_equal, is_less_equal, is_comparison, is_step_sign, is_name, is_literal, is_while, is_else, is_in};
ghost use Rattle.prem_reader.specs.Statement.SlotOf.{slot_of};

use prem_text::lexing::token::{Mark, Token, Word};

/// What stands in one place of a row.
#[derive(Clone, Copy, Debug)]
pub enum Slot {
    LeftParenthesis,
    RightParenthesis,
    LeftBrace,
    RightBrace,
    RightBracket,
    Semicolon,
    Comma,
    EqualSign,
    PlusSign,
    PlusPlus,
    PlusEqual,
    /// `<` or `<=`.
    Comparison,
    /// `++`, `+=` or `=`.
    StepSign,
    AName,
    ALiteral,
    TheWhile,
}

/// Whether a token is `(`.
pub fn is_left_parenthesis(token: &Token) -> bool
    ensures { result ≡ is_left_parenthesis (lexeme_of token.now) }
{
    matches!(token, Token::Mark(Mark::OpenParenthesis))
}

/// Whether a token is `)`.
pub fn is_right_parenthesis(token: &Token) -> bool
    ensures { result ≡ is_right_parenthesis (lexeme_of token.now) }
{
    matches!(token, Token::Mark(Mark::CloseParenthesis))
}

/// Whether a token is `{`.
pub fn is_left_brace(token: &Token) -> bool
    ensures { result ≡ is_left_brace (lexeme_of token.now) }
{
    matches!(token, Token::Mark(Mark::OpenBrace))
}

/// Whether a token is `}`.
pub fn is_right_brace(token: &Token) -> bool
    ensures { result ≡ is_right_brace (lexeme_of token.now) }
{
    matches!(token, Token::Mark(Mark::CloseBrace))
}

/// Whether a token is `[`.
pub fn is_left_bracket(token: &Token) -> bool
    ensures { result ≡ is_left_bracket (lexeme_of token.now) }
{
    matches!(token, Token::Mark(Mark::OpenBracket))
}

pub(crate) fn is_right_bracket(token: &Token) -> bool
    ensures { result ≡ is_right_bracket (lexeme_of token.now) }
{
    matches!(token, Token::Mark(Mark::CloseBracket))
}

/// Whether a token is `;`.
pub fn is_semicolon(token: &Token) -> bool
    ensures { result ≡ is_semicolon (lexeme_of token.now) }
{
    matches!(token, Token::Mark(Mark::Semicolon))
}

/// Whether a token is `,`.
pub fn is_comma(token: &Token) -> bool
    ensures { result ≡ is_comma (lexeme_of token.now) }
{
    matches!(token, Token::Mark(Mark::Comma))
}

/// Whether a token is `=`.
pub fn is_equal(token: &Token) -> bool
    ensures { result ≡ is_equal (lexeme_of token.now) }
{
    matches!(token, Token::Mark(Mark::Equal))
}

pub(crate) fn is_plus(token: &Token) -> bool
    ensures { result ≡ is_plus (lexeme_of token.now) }
{
    matches!(token, Token::Mark(Mark::Plus))
}

pub(crate) fn is_plus_plus(token: &Token) -> bool
    ensures { result ≡ is_plus_plus (lexeme_of token.now) }
{
    matches!(token, Token::Mark(Mark::PlusPlus))
}

pub(crate) fn is_plus_equal(token: &Token) -> bool
    ensures { result ≡ is_plus_equal (lexeme_of token.now) }
{
    matches!(token, Token::Mark(Mark::PlusEqual))
}

pub(crate) fn is_less_equal(token: &Token) -> bool
    ensures { result ≡ is_less_equal (lexeme_of token.now) }
{
    matches!(token, Token::Mark(Mark::LessEqual))
}

pub(crate) fn is_comparison(token: &Token) -> bool
    ensures { result ≡ is_comparison (lexeme_of token.now) }
{
    matches!(token, Token::Mark(Mark::Less | Mark::LessEqual))
}

pub(crate) fn is_step_sign(token: &Token) -> bool
    ensures { result ≡ is_step_sign (lexeme_of token.now) }
{
    matches!(
        token,
        Token::Mark(Mark::PlusPlus | Mark::PlusEqual | Mark::Equal)
    )
}

pub(crate) fn is_name(token: &Token) -> bool
    ensures { result ≡ is_name (lexeme_of token.now) }
{
    matches!(token, Token::Name(_))
}

pub(crate) fn is_literal(token: &Token) -> bool
    ensures { result ≡ is_literal (lexeme_of token.now) }
{
    matches!(token, Token::Literal { .. })
}

pub(crate) fn is_while(token: &Token) -> bool
    ensures { result ≡ is_while (lexeme_of token.now) }
{
    matches!(token, Token::Word(Word::While))
}

pub(crate) fn is_else(token: &Token) -> bool
    ensures { result ≡ is_else (lexeme_of token.now) }
{
    matches!(token, Token::Word(Word::Else))
}

pub(crate) fn is_in(token: &Token) -> bool
    ensures { result ≡ is_in (lexeme_of token.now) }
{
    matches!(token, Token::Word(Word::In))
}

/// Whether a token may stand where a slot is.
pub fn fits(slot: Slot, token: &Token) -> bool
    ensures { result ≡ fits (slot_of slot) (lexeme_of token.now) }
{
    match slot {
        Slot::LeftParenthesis => is_left_parenthesis(token),
        Slot::RightParenthesis => is_right_parenthesis(token),
        Slot::LeftBrace => is_left_brace(token),
        Slot::RightBrace => is_right_brace(token),
        Slot::RightBracket => is_right_bracket(token),
        Slot::Semicolon => is_semicolon(token),
        Slot::Comma => is_comma(token),
        Slot::EqualSign => is_equal(token),
        Slot::PlusSign => is_plus(token),
        Slot::PlusPlus => is_plus_plus(token),
        Slot::PlusEqual => is_plus_equal(token),
        Slot::Comparison => is_comparison(token),
        Slot::StepSign => is_step_sign(token),
        Slot::AName => is_name(token),
        Slot::ALiteral => is_literal(token),
        Slot::TheWhile => is_while(token),
    }
}
