// Words, numbers, names and ranges of a text.
ghost use Rattle.std.specs.Prelude.{◌≡◌, IfOk};
ghost use Rattle.prem_word.specs.Ranges.{span_of};
ghost use Rattle.prem_answer.specs.Refusal.Texts.{called, ends, named, numbered, ranged, twice_numbered};

use prem_word::Range;
use std::alloc::{AllocError, Global};

/// A rule and a number.
pub fn numbered(alloc: Global, words: &str, n: u64) -> Result<Vec<u8>, AllocError>
    ensures { IfOk result (λ text. text.items ≡ numbered words.now n) }
{
    Ok(format!(in alloc; "{words} {n}")?.into_bytes())
}

/// A rule and two numbers.
pub fn twice_numbered(alloc: Global, words: &str, m: u64, n: u64) -> Result<Vec<u8>, AllocError>
    ensures { IfOk result (λ text. text.items ≡ twice_numbered words.now m n) }
{
    Ok(format!(in alloc; "{words} {m} {n}")?.into_bytes())
}

/// A rule and a name.
pub fn called(alloc: Global, words: &str, name: &[u8]) -> Result<Vec<u8>, AllocError>
    ensures { IfOk result (λ text. text.items ≡ called words.now name.now) }
{
    let mut text = words.as_bytes().to_vec(alloc)?;
    text.extend_from_slice(b" ")?;
    text.extend_from_slice(name)?;
    Ok(text)
}

/// A rule, a number and a name.
pub fn named(alloc: Global, words: &str, n: u32, name: &[u8]) -> Result<Vec<u8>, AllocError>
    ensures { IfOk result (λ text. text.items ≡ named words.now n name.now) }
{
    let mut text = format!(in alloc; "{words} {n} ")?.into_bytes();
    text.extend_from_slice(name)?;
    Ok(text)
}

/// The ends of a range.
pub fn ends(alloc: Global, r: Range) -> Result<Vec<u8>, AllocError>
    ensures { IfOk result (λ text. text.items ≡ ends (span_of r)) }
{
    let (low, high) = (r.lo, r.hi);
    Ok(format!(in alloc; " {low} {high}")?.into_bytes())
}

/// A rule, a line and a range.
pub fn ranged(alloc: Global, words: &str, line: u32, r: Range) -> Result<Vec<u8>, AllocError>
    ensures { IfOk result (λ text. text.items ≡ ranged words.now line (span_of r)) }
{
    let mut text = numbered(alloc, words, line as u64)?;
    text.extend_from_slice(&ends(alloc, r)?)?;
    Ok(text)
}
