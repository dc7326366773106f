// The spelling of reserved words and marks.
ghost use Rattle.std.specs.Prelude.{◌≡◌};
ghost use Rattle.prem_text.specs.Lexing.Spelling.{used_word, is_unused, reserved_word, longest_mark};

use crate::lexing::token::{Mark, Word};

/// The word of the grammar that these bytes spell.
#[tactic(auto, unfolding(crate::specs::Lexing::Spelling::used_word))]
fn used_word(bytes: &[u8]) -> Option<Word>
    ensures { result ≡ used_word bytes.now }
{
    if bytes == b"void".as_slice() {
        Some(Word::Void)
    } else if bytes == b"int".as_slice() {
        Some(Word::Int)
    } else if bytes == b"short".as_slice() {
        Some(Word::Short)
    } else if bytes == b"signed".as_slice() {
        Some(Word::Signed)
    } else if bytes == b"char".as_slice() {
        Some(Word::Char)
    } else if bytes == b"unsigned".as_slice() {
        Some(Word::Unsigned)
    } else if bytes == b"if".as_slice() {
        Some(Word::If)
    } else if bytes == b"else".as_slice() {
        Some(Word::Else)
    } else if bytes == b"for".as_slice() {
        Some(Word::For)
    } else if bytes == b"while".as_slice() {
        Some(Word::While)
    } else if bytes == b"return".as_slice() {
        Some(Word::Return)
    } else if bytes == b"PREDICTABLE".as_slice() {
        Some(Word::Predictable)
    } else if bytes == b"REGION".as_slice() {
        Some(Word::Region)
    } else if bytes == b"RANGE".as_slice() {
        Some(Word::Range)
    } else if bytes == b"BOUNDED".as_slice() {
        Some(Word::Bounded)
    } else if bytes == b"in".as_slice() {
        Some(Word::In)
    } else if bytes == b"out".as_slice() {
        Some(Word::Out)
    } else {
        None
    }
}

/// Whether these bytes spell a reserved word that the grammar has no use for.
#[tactic(auto, unfolding(crate::specs::Lexing::Spelling::is_unused))]
fn is_unused(bytes: &[u8]) -> bool
    ensures { result ≡ is_unused bytes.now }
{
    bytes == b"auto".as_slice()
        || bytes == b"break".as_slice()
        || bytes == b"case".as_slice()
        || bytes == b"const".as_slice()
        || bytes == b"continue".as_slice()
        || bytes == b"default".as_slice()
        || bytes == b"do".as_slice()
        || bytes == b"double".as_slice()
        || bytes == b"enum".as_slice()
        || bytes == b"extern".as_slice()
        || bytes == b"float".as_slice()
        || bytes == b"goto".as_slice()
        || bytes == b"inline".as_slice()
        || bytes == b"long".as_slice()
        || bytes == b"register".as_slice()
        || bytes == b"restrict".as_slice()
        || bytes == b"sizeof".as_slice()
        || bytes == b"static".as_slice()
        || bytes == b"struct".as_slice()
        || bytes == b"switch".as_slice()
        || bytes == b"typedef".as_slice()
        || bytes == b"union".as_slice()
        || bytes == b"volatile".as_slice()
        || bytes == b"_Bool".as_slice()
        || bytes == b"_Complex".as_slice()
        || bytes == b"_Imaginary".as_slice()
}

/// The reserved word that these bytes spell.
#[tactic(auto, unfolding(crate::specs::Lexing::Spelling::reserved_word))]
pub(crate) fn reserved_word(bytes: &[u8]) -> Option<Word>
    ensures { result ≡ reserved_word bytes.now }
{
    match used_word(bytes) {
        Some(word) => Some(word),
        None => {
            if is_unused(bytes) {
                Some(Word::Unused)
            } else {
                None
            }
        }
    }
}

/// The longest mark that begins with a byte which another byte, or 0, follows; and its number of bytes.
#[tactic(auto, unfolding(crate::specs::Lexing::Spelling::longest_mark))]
pub(crate) fn longest_mark(first: u8, second: u8) -> Option<(Mark, usize)>
    ensures { result ≡ longest_mark first second }
{
    match (first, second) {
        (b'<', b'=') => Some((Mark::LessEqual, 2)),
        (b'>', b'=') => Some((Mark::GreaterEqual, 2)),
        (b'=', b'=') => Some((Mark::EqualEqual, 2)),
        (b'!', b'=') => Some((Mark::NotEqual, 2)),
        (b'&', b'&') => Some((Mark::AndAnd, 2)),
        (b'|', b'|') => Some((Mark::OrOr, 2)),
        (b'<', b'<') => Some((Mark::ShiftLeft, 2)),
        (b'>', b'>') => Some((Mark::ShiftRight, 2)),
        (b'+', b'+') => Some((Mark::PlusPlus, 2)),
        (b'-', b'-') => Some((Mark::MinusMinus, 2)),
        (b'+', b'=') => Some((Mark::PlusEqual, 2)),
        (b'-', b'=') => Some((Mark::MinusEqual, 2)),
        (b'(', _) => Some((Mark::OpenParenthesis, 1)),
        (b')', _) => Some((Mark::CloseParenthesis, 1)),
        (b'{', _) => Some((Mark::OpenBrace, 1)),
        (b'}', _) => Some((Mark::CloseBrace, 1)),
        (b'[', _) => Some((Mark::OpenBracket, 1)),
        (b']', _) => Some((Mark::CloseBracket, 1)),
        (b';', _) => Some((Mark::Semicolon, 1)),
        (b',', _) => Some((Mark::Comma, 1)),
        (b'=', _) => Some((Mark::Equal, 1)),
        (b'+', _) => Some((Mark::Plus, 1)),
        (b'-', _) => Some((Mark::Minus, 1)),
        (b'*', _) => Some((Mark::Star, 1)),
        (b'/', _) => Some((Mark::Slash, 1)),
        (b'%', _) => Some((Mark::Percent, 1)),
        (b'&', _) => Some((Mark::And, 1)),
        (b'|', _) => Some((Mark::Or, 1)),
        (b'^', _) => Some((Mark::Caret, 1)),
        (b'~', _) => Some((Mark::Tilde, 1)),
        (b'!', _) => Some((Mark::Bang, 1)),
        (b'<', _) => Some((Mark::Less, 1)),
        (b'>', _) => Some((Mark::Greater, 1)),
        _ => None,
    }
}
