// The tokens of a text.
ghost use Rattle.std.specs.Prelude.{◌≡◌, ◌≤◌, ◌<◌, Some, Ok, length, map, take_while};
ghost use Rattle.std.specs.Option.{option_map};
ghost use Rattle.prem_text.specs.Lexing.Token.Reading.{Gives};
ghost use Rattle.prem_text.specs.Lexing.Token.Lexeme.{lexeme_of, seen_of};
ghost use Rattle.prem_text.specs.Lexing.Tokens.{is_name_byte, is_blank, is_printable, word_token, first_token, place, behind, begins_with, start, step, tokens_of};

use crate::lexing::literal::literal_of;
use crate::lexing::spelling::{longest_mark, reserved_word};
use crate::lexing::token::{FrontFail, Spotted, Token};
use prem_syntax::{Name, Place};
use std::alloc::Global;

/// The greatest number of bytes of a text.
const TEXT_BYTES: usize = 1048576;

/// The greatest number of tokens of a text; its end doesn't count.
const TEXT_TOKENS: usize = 200000;

/// Where the reading of bytes stands.
#[derive(Clone, Copy, Debug)]
pub enum Mode {
    /// So many bytes of a token are left; behind them a token or a blank may begin.
    Skip { left: usize },
    /// In a comment up to the end of the line.
    Line,
    /// In a comment that began at a place; it may end when so many bytes have passed.
    Block { left: usize, from: Place },
}

/// A byte's offset from 0, and its place.
#[derive(Clone, Copy, Debug)]
pub struct Cursor {
    pub offset: u32,
    pub line: u32,
    pub col: u32,
}

impl Cursor {
    fn place(self) -> Place
        ensures { result ≡ place self }
    {
        Place {
            line: self.line,
            col: self.col,
        }
    }

    fn behind(self, byte: u8) -> Cursor
        requires offset { self.offset < 1048576 }
        requires line { self.line ≤ 1048576 }
        requires col { self.col ≤ 1048576 }
        ensures { result ≡ behind self byte }
    {
        let ends = byte == b'\n';
        Cursor {
            offset: self.offset + 1,
            line: if ends { self.line + 1 } else { self.line },
            col: if ends { 1 } else { self.col + 1 },
        }
    }
}

fn is_name_byte(byte: u8) -> bool
    ensures { result ≡ is_name_byte byte }
{
    byte.is_ascii_alphanumeric() || byte == b'_'
}

fn is_blank(byte: u8) -> bool
    ensures { result ≡ is_blank byte }
{
    byte == b' ' || (9..=13).contains(&byte)
}

fn is_printable(byte: u8) -> bool
    ensures { result ≡ is_printable byte }
{
    byte.is_ascii_graphic()
}

/// The number of name bytes at the front.
fn word_length(text: &[u8]) -> usize
    ensures { result ≡ length (take_while is_name_byte text.now) }
{
    text.iter().take_while(|byte| is_name_byte(**byte)).count()
}

/// The token that a run of name bytes spells.
fn word_token(alloc: Global, word: &[u8]) -> Result<Option<Token>, FrontFail>
    requires { 0 < length word.now }
    ensures { Gives (option_map lexeme_of) result (Ok (word_token word.now)) }
{
    if word[0].is_ascii_digit() {
        return Ok(match literal_of(word) {
            Some((value, kind)) => Some(Token::Literal { value, kind }),
            None => None,
        });
    }
    if let Some(word) = reserved_word(word) {
        return Ok(Some(Token::Word(word)));
    }
    Ok(match Name::new(alloc, word)? {
        Some(name) => Some(Token::Name(name)),
        None => None,
    })
}

/// The token at the front of a text that isn't empty, and its number of bytes.
#[tactic(auto, unfolding(crate::specs::Lexing::Tokens::first_token))]
fn first_token(alloc: Global, text: &[u8]) -> Result<Option<(Token, usize)>, FrontFail>
    requires { 0 < length text.now }
    ensures { Gives (option_map (λ t. (lexeme_of t.0, t.1))) result (Ok (first_token text.now)) }
{
    if is_name_byte(text[0]) {
        let count = word_length(text);
        Ok(match word_token(alloc, &text[..count])? {
            Some(token) => Some((token, count)),
            None => None,
        })
    } else {
        let second = if text.len() > 1 { text[1] } else { 0 };
        Ok(match longest_mark(text[0], second) {
            Some((mark, count)) => Some((Token::Mark(mark), count)),
            None => None,
        })
    }
}

fn begins_with(text: &[u8], first: u8, second: u8) -> bool
    requires { 0 < second }
    ensures { result ≡ begins_with first second text.now }
{
    text.len() > 1 && text[0] == first && text[1] == second
}

/// What begins at the front of a text: the mode behind its first byte, and a token that begins there.
#[tactic(auto, unfolding(crate::specs::Lexing::Tokens::start))]
fn start(alloc: Global, at: Cursor, text: &[u8]) -> Result<(Mode, Option<Token>), FrontFail>
    requires { 0 < length text.now }
    ensures { Gives (λ s. (s.0, option_map lexeme_of s.1)) result (start at text.now) }
{
    if is_blank(text[0]) {
        return Ok((Mode::Skip { left: 0 }, None));
    }
    if begins_with(text, b'/', b'/') {
        return Ok((Mode::Line, None));
    }
    if begins_with(text, b'/', b'*') {
        let from = at.place();
        return Ok((Mode::Block { left: 1, from }, None));
    }
    if !is_printable(text[0]) {
        return Err(FrontFail::NotText { at: at.offset });
    }
    match first_token(alloc, text)? {
        Some((token, count)) => {
            let left = count.saturating_sub(1);
            Ok((Mode::Skip { left }, Some(token)))
        }
        None => Err(FrontFail::Token {
            line: at.line,
            col: at.col,
        }),
    }
}

/// What the byte at the front of a text does: the mode behind it, and a token that begins with it.
#[tactic(auto, unfolding(crate::specs::Lexing::Tokens::step))]
fn step(
    alloc: Global,
    mode: Mode,
    at: Cursor,
    text: &[u8],
) -> Result<(Mode, Option<Token>), FrontFail>
    requires { 0 < length text.now }
    ensures { Gives (λ s. (s.0, option_map lexeme_of s.1)) result (step mode at text.now) }
{
    let next = match mode {
        Mode::Skip { left: 0 } => return start(alloc, at, text),
        Mode::Skip { left } => Mode::Skip { left: left - 1 },
        Mode::Line if text[0] == b'\n' => Mode::Skip { left: 0 },
        Mode::Line => Mode::Line,
        Mode::Block { left: 0, .. } if begins_with(text, b'*', b'/') => Mode::Skip { left: 1 },
        Mode::Block { left: 0, from } => Mode::Block { left: 0, from },
        Mode::Block { left, from } => Mode::Block {
            left: left - 1,
            from,
        },
    };
    Ok((next, None))
}

/// The tokens of a text with their places, from the left; the last one is the end of the text.
///
/// Blanks are space, tab, line feed, vertical tab, form feed, carriage return and the comments of C99,
/// which may hold any bytes. Names have at most 64 bytes. The longest token is taken, as in C99.
///
/// A text of more than 1048576 bytes is `TooLong`. Otherwise the first of these decides: `NotText` for
/// a byte outside comments that is neither a blank nor printable ASCII, `Token` where no token begins,
/// or one is refused, or a comment begins that isn't closed, and `TooLong` for the 200001st token.
/// `OutOfMemory` comes only for want of memory.
#[tactic(auto, unfolding(crate::specs::Lexing::Tokens::tokens_of))]
pub fn tokens(alloc: Global, text: &[u8]) -> Result<Vec<Spotted>, FrontFail>
    ensures { Gives (λ all. map seen_of all.items) result (tokens_of text.now) }
{
    if text.len() > TEXT_BYTES {
        return Err(FrontFail::TooLong);
    }
    let mut all = Vec::new(alloc);
    let mut mode = Mode::Skip { left: 0 };
    let mut cursor = Cursor {
        offset: 0,
        line: 1,
        col: 1,
    };
    for i in 0..text.len() {
        let (next, token) = step(alloc, mode, cursor, &text[i..])?;
        if let Some(token) = token {
            if all.len() == TEXT_TOKENS {
                return Err(FrontFail::TooLong);
            }
            let at = cursor.place();
            all.push(Spotted { token, at })?;
        }
        mode = next;
        cursor = cursor.behind(text[i]);
    }
    if let Mode::Block { from, .. } = mode {
        return Err(FrontFail::Token {
            line: from.line,
            col: from.col,
        });
    }
    all.push(Spotted {
        token: Token::End,
        at: cursor.place(),
    })?;
    Ok(all)
}
