// One token, with a blank behind it.
#![tactic(auto, unfolding(crate::specs::Written::piece))]

ghost use Rattle.std.specs.Prelude.{◌≡◌, ◌++◌, ◌∷◌, [], OnOk};
ghost use Rattle.prem_syntax.specs.Name.{name_bytes};
ghost use Rattle.prem_text.specs.Lexing.Token.Lexeme.{name, number, word, mark};
ghost use Rattle.prem_text.specs.Canonical.Canonical.{number_lexeme, kind_for};
ghost use Rattle.prem_text.specs.Canonical.Printed.{word_bytes, mark_bytes};
ghost use Rattle.prem_print.specs.Written.{piece};

use prem_syntax::{Kind, Name};
use prem_text::lexing::token::{Mark, Word};
use std::alloc::AllocError;

/// The spelling of a word.
fn word_text(keyword: Word) -> &'static str
    ensures { result.now ≡ word_bytes keyword }
{
    match keyword {
        Word::Void => "void",
        Word::Int => "int",
        Word::Short => "short",
        Word::Signed => "signed",
        Word::Char => "char",
        Word::Unsigned => "unsigned",
        Word::If => "if",
        Word::Else => "else",
        Word::For => "for",
        Word::While => "while",
        Word::Return => "return",
        Word::Predictable => "PREDICTABLE",
        Word::Region => "REGION",
        Word::Range => "RANGE",
        Word::Bounded => "BOUNDED",
        Word::In => "in",
        Word::Out => "out",
        Word::Unused => "auto",
    }
}

/// The spelling of a mark.
fn mark_text(sign: Mark) -> &'static str
    ensures { result.now ≡ mark_bytes sign }
{
    match sign {
        Mark::LessEqual => "<=",
        Mark::GreaterEqual => ">=",
        Mark::EqualEqual => "==",
        Mark::NotEqual => "!=",
        Mark::AndAnd => "&&",
        Mark::OrOr => "||",
        Mark::ShiftLeft => "<<",
        Mark::ShiftRight => ">>",
        Mark::PlusPlus => "++",
        Mark::MinusMinus => "--",
        Mark::PlusEqual => "+=",
        Mark::MinusEqual => "-=",
        Mark::OpenParenthesis => "(",
        Mark::CloseParenthesis => ")",
        Mark::OpenBrace => "{",
        Mark::CloseBrace => "}",
        Mark::OpenBracket => "[",
        Mark::CloseBracket => "]",
        Mark::Semicolon => ";",
        Mark::Comma => ",",
        Mark::Equal => "=",
        Mark::Plus => "+",
        Mark::Minus => "-",
        Mark::Star => "*",
        Mark::Slash => "/",
        Mark::Percent => "%",
        Mark::And => "&",
        Mark::Or => "|",
        Mark::Caret => "^",
        Mark::Tilde => "~",
        Mark::Bang => "!",
        Mark::Less => "<",
        Mark::Greater => ">",
    }
}

/// Bytes and a blank.
fn push_spaced(text: &mut Vec<u8>, bytes: &[u8]) -> Result<(), AllocError>
    ensures { OnOk result (text.new.items ≡ text.old.items ++ bytes.now ++ 32 ∷ []) }
{
    text.extend_from_slice(bytes)?;
    text.push(b' ')?;
    Ok(())
}

/// A word.
pub fn push_word(text: &mut Vec<u8>, keyword: Word) -> Result<(), AllocError>
    ensures { OnOk result (text.new.items ≡ text.old.items ++ piece (word keyword)) }
{
    push_spaced(text, word_text(keyword).as_bytes())
}

/// A mark.
pub fn push_mark(text: &mut Vec<u8>, sign: Mark) -> Result<(), AllocError>
    ensures { OnOk result (text.new.items ≡ text.old.items ++ piece (mark sign)) }
{
    push_spaced(text, mark_text(sign).as_bytes())
}

/// A name.
pub fn push_name(text: &mut Vec<u8>, identifier: &Name) -> Result<(), AllocError>
    ensures { OnOk result (text.new.items ≡ text.old.items ++ piece (name (name_bytes identifier.now))) }
{
    push_spaced(text, identifier.bytes())
}

/// A literal, with the suffix `u` where it is unsigned.
pub fn push_literal(text: &mut Vec<u8>, value: u64, kind: Kind) -> Result<(), AllocError>
    ensures { OnOk result (text.new.items ≡ text.old.items ++ piece (number value kind)) }
{
    let alloc = *text.allocator();
    let digits = format!(in alloc; "{value}")?;
    text.extend_from_slice(digits.as_bytes())?;
    if kind == Kind::Unsigned {
        text.push(b'u')?;
    }
    text.push(b' ')?;
    Ok(())
}

/// The kind of a literal whose kind the tree doesn't keep.
fn kind_for(value: u64) -> Kind
    ensures { result ≡ kind_for value }
{
    if value > 2147483647 {
        Kind::Unsigned
    } else {
        Kind::Int
    }
}

/// A literal whose kind the tree doesn't keep.
pub fn push_number(text: &mut Vec<u8>, value: u64) -> Result<(), AllocError>
    ensures { OnOk result (text.new.items ≡ text.old.items ++ piece (number_lexeme value)) }
{
    push_literal(text, value, kind_for(value))
}
