// The lines of the marks of a text.
ghost use Rattle.std.specs.Prelude.{◌≡◌, IfOk, map};
ghost use Rattle.prem_text.specs.Lexing.Token.Lexeme.{lexeme_of, seen_of};
ghost use Rattle.prem_profile.specs.Lines.Marks.{is_mark, is_predictable, mark_lines, marks_in};

use prem_text::lexing::token::{FrontFail, Spotted, Token, Word};
use prem_text::lexing::tokens;
use std::alloc::{AllocError, Global};

/// Whether a word is `PREDICTABLE`.
fn is_predictable(word: Word) -> bool
    ensures { result ≡ is_predictable word }
{
    matches!(word, Word::Predictable)
}

/// Whether a token is that word.
fn is_mark(token: &Token) -> bool
    ensures { result ≡ is_mark (lexeme_of token.now) }
{
    match token {
        Token::Word(word) => is_predictable(*word),
        Token::Name(_) | Token::Literal { .. } | Token::Mark(_) | Token::End => false,
    }
}

/// The lines of the marks among tokens.
fn marks_in(alloc: Global, all: &[Spotted]) -> Result<Vec<u32>, AllocError>
    ensures { IfOk result (λ marks. marks.items ≡ marks_in (map seen_of all.now)) }
{
    let mut marks = Vec::new(alloc);
    'tokens: for spotted in all {
        if is_mark(&spotted.token) {
            marks.push(spotted.at.line)?;
        }
    }
    Ok(marks)
}

/// The lines of the words `PREDICTABLE` of a text, in order; none where it has no tokens.
pub fn mark_lines(alloc: Global, text: &[u8]) -> Result<Vec<u32>, AllocError>
    ensures { IfOk result (λ marks. marks.items ≡ mark_lines text.now) }
{
    match tokens(alloc, text) {
        Ok(all) => marks_in(alloc, &all),
        Err(FrontFail::OutOfMemory) => Err(AllocError),
        Err(FrontFail::NotText { .. }) => Ok(Vec::new(alloc)),
        Err(FrontFail::Token { .. }) => Ok(Vec::new(alloc)),
        Err(FrontFail::Syntax { .. }) => Ok(Vec::new(alloc)),
        Err(FrontFail::TooLong) => Ok(Vec::new(alloc)),
        Err(FrontFail::TooDeep { .. }) => Ok(Vec::new(alloc)),
    }
}
