// Words, marks, and the tokens that they make.
use prem_syntax::{Kind, Name, Place};

/// A reserved word: a keyword of C99 or an annotation word.
#[derive(Clone, Copy, Debug, PartialEq, Eq)]
pub enum Word {
    Void,
    Int,
    Short,
    Signed,
    Char,
    Unsigned,
    If,
    Else,
    For,
    While,
    Return,
    Predictable,
    Region,
    Range,
    Bounded,
    In,
    Out,
    /// Any other keyword of C99: no program has one.
    Unused,
}

/// An operator or a punctuator.
#[derive(Clone, Copy, Debug, PartialEq, Eq)]
pub enum Mark {
    LessEqual,
    GreaterEqual,
    EqualEqual,
    NotEqual,
    AndAnd,
    OrOr,
    ShiftLeft,
    ShiftRight,
    PlusPlus,
    MinusMinus,
    PlusEqual,
    MinusEqual,
    OpenParenthesis,
    CloseParenthesis,
    OpenBrace,
    CloseBrace,
    OpenBracket,
    CloseBracket,
    Semicolon,
    Comma,
    Equal,
    Plus,
    Minus,
    Star,
    Slash,
    Percent,
    And,
    Or,
    Caret,
    Tilde,
    Bang,
    Less,
    Greater,
}

/// A token of the language.
#[derive(Debug, PartialEq, Eq, Drop)]
pub enum Token {
    Name(Name),
    /// A constant and the kind that its spelling gives it.
    Literal { value: u32, kind: Kind },
    Word(Word),
    Mark(Mark),
    /// The end of the text.
    End,
}

/// A token and the place of its first byte.
#[derive(Debug, PartialEq, Eq, Drop)]
pub struct Spotted {
    pub token: Token,
    pub at: Place,
}
