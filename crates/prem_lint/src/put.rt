// Numbers in a text, and what stands before a diagnostic.
ghost use Rattle.std.specs.Prelude.{◌≡◌, ◌++◌, OnOk, decimal};
ghost use Rattle.std.specs.Fmt.{signed_decimal};
ghost use Rattle.prem_word.specs.Ranges.{span_of};
ghost use Rattle.prem_syntax.specs.Name.{name_bytes};
ghost use Rattle.prem_lint.specs.Spots.{head, spot_text};
ghost use Rattle.prem_lint.specs.Elements.{values};

use crate::spot::Spot;
use prem_syntax::Name;
use prem_word::Range;
use std::alloc::{AllocError, Global};

/// Bytes.
pub(crate) fn put_bytes(text: &mut Vec<u8>, bytes: &[u8]) -> Result<(), AllocError>
    ensures { OnOk result (text.new.items ≡ text.old.items ++ bytes.now) }
{
    text.extend_from_slice(bytes)
}

/// A name.
pub(crate) fn put_name(text: &mut Vec<u8>, name: &Name) -> Result<(), AllocError>
    ensures { OnOk result (text.new.items ≡ text.old.items ++ name_bytes name.now) }
{
    text.extend_from_slice(name.bytes())
}

/// A number.
pub(crate) fn put_number(alloc: Global, text: &mut Vec<u8>, n: u64) -> Result<(), AllocError>
    ensures { OnOk result (text.new.items ≡ text.old.items ++ decimal n) }
{
    text.extend_from_slice(format!(in alloc; "{n}")?.as_bytes())
}

/// An integer.
pub(crate) fn put_integer(alloc: Global, text: &mut Vec<u8>, z: i64) -> Result<(), AllocError>
    ensures { OnOk result (text.new.items ≡ text.old.items ++ signed_decimal z) }
{
    text.extend_from_slice(format!(in alloc; "{z}")?.as_bytes())
}

/// The low end of a range.
pub(crate) fn put_low(alloc: Global, text: &mut Vec<u8>, r: Range) -> Result<(), AllocError>
    ensures { OnOk result (text.new.items ≡ text.old.items ++ signed_decimal (span_of r).lo) }
{
    put_integer(alloc, text, r.lo)
}

/// The high end of a range.
pub(crate) fn put_high(alloc: Global, text: &mut Vec<u8>, r: Range) -> Result<(), AllocError>
    ensures { OnOk result (text.new.items ≡ text.old.items ++ signed_decimal (span_of r).hi) }
{
    put_integer(alloc, text, r.hi)
}

/// The ends of a range, or its only number.
pub(crate) fn put_values(alloc: Global, text: &mut Vec<u8>, r: Range) -> Result<(), AllocError>
    ensures { OnOk result (text.new.items ≡ text.old.items ++ values (span_of r)) }
{
    if r.lo < r.hi {
        put_integer(alloc, text, r.lo)?;
        text.extend_from_slice(b" to ")?;
        put_integer(alloc, text, r.hi)
    } else {
        put_integer(alloc, text, r.lo)
    }
}

/// The line and the column, as far as they are told.
fn put_spot(alloc: Global, text: &mut Vec<u8>, spot: Spot) -> Result<(), AllocError>
    ensures { OnOk result (text.new.items ≡ text.old.items ++ spot_text spot) }
{
    match spot {
        Spot::Whole => text.extend_from_slice(b": "),
        Spot::Line(line) => text.extend_from_slice(format!(in alloc; ":{line}: ")?.as_bytes()),
        Spot::At { line, col } => {
            text.extend_from_slice(format!(in alloc; ":{line}:{col}: ")?.as_bytes())
        }
    }
}

/// `FILE: `, `FILE:LINE: ` or `FILE:LINE:COLUMN: `.
#[tactic(auto, unfolding(crate::specs::Spots::head))]
pub(crate) fn put_head(
    alloc: Global,
    text: &mut Vec<u8>,
    file: &str,
    spot: Spot,
) -> Result<(), AllocError>
    ensures { OnOk result (text.new.items ≡ text.old.items ++ head file.now spot) }
{
    text.extend_from_slice(file.as_bytes())?;
    put_spot(alloc, text, spot)
}
