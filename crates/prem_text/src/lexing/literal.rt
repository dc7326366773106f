// The spelling of literals.
ghost use Rattle.std.specs.Prelude.{◌≡◌, ◌≤◌, ◌<◌, length};
ghost use Rattle.prem_text.specs.Lexing.Literal.{digit_value, digits, with_kind, literal_word};

use prem_syntax::Kind;

/// The value of a digit, or 16.
fn value_of(b: u8) -> u32
    ensures value { result ≡ digit_value b }
    ensures small { result ≤ 16 }
{
    match b {
        b'0'..=b'9' => u32::from(b - b'0'),
        b'a'..=b'f' => u32::from(b - 87),
        b'A'..=b'F' => u32::from(b - 55),
        _ => 16,
    }
}

/// The number that digits spell, and whether a `u` ends them.
fn number(base: u32, word: &[u8]) -> Option<(u32, bool)>
    requires { base ≤ 16 }
    ensures { result ≡ digits base 0 word.now }
{
    let mut n = 0u32;
    for (i, d) in word.iter().enumerate() {
        if *d == b'u' || *d == b'U' {
            return if i + 1 == word.len() {
                Some((n, true))
            } else {
                None
            };
        }
        let value = value_of(*d);
        if value >= base {
            return None;
        }
        let wide = u64::from(n) * u64::from(base) + u64::from(value);
        if wide > 4294967295 {
            return None;
        }
        n = wide as u32;
    }
    Some((n, false))
}

fn kind(hex: bool, value: u32, suffix: bool) -> Option<(u32, Kind)>
    ensures { result ≡ with_kind hex (value, suffix) }
{
    if suffix {
        Some((value, Kind::Unsigned))
    } else if value < 2147483648 {
        Some((value, Kind::Int))
    } else if hex {
        Some((value, Kind::Unsigned))
    } else {
        None
    }
}

/// The value and kind of a word that begins with a digit; none where it is no literal.
#[tactic(auto, unfolding(crate::specs::Lexing::Literal::literal_word))]
pub(crate) fn literal_of(word: &[u8]) -> Option<(u32, Kind)>
    requires { 0 < length word.now }
    ensures { result ≡ literal_word word.now }
{
    if word[0] != b'0' {
        let (value, suffix) = number(10, word)?;
        return kind(false, value, suffix);
    }
    if word.len() > 1 && (word[1] == b'x' || word[1] == b'X') {
        if word.len() < 3 || value_of(word[2]) == 16 {
            return None;
        }
        let (value, suffix) = number(16, &word[2..])?;
        return kind(true, value, suffix);
    }
    let (value, suffix) = number(0, &word[1..])?;
    kind(false, value, suffix)
}
