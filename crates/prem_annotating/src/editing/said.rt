// The texts of annotations.
ghost use Rattle.std.specs.Prelude.{◌≡◌, ◌++◌, map, OnOk, IfOk};
ghost use Rattle.prem_syntax.specs.SyntaxOf.{region_of};
ghost use Rattle.prem_text.specs.Canonical.Canonical.{kind_for};
ghost use Rattle.prem_text.specs.Canonical.Printed.{lexeme_bytes};
ghost use Rattle.prem_text.specs.Lexing.Token.Lexeme.{number};
ghost use Rattle.prem_annotating.specs.Editing.Orders.{length_bytes, constant_bytes, range_spelled, region_spelled, regions_spelled, regions_bytes};

use prem_syntax::{Kind, Region};
use std::alloc::{AllocError, Global};

fn kind_for(value: u64) -> Kind
    ensures { result ≡ kind_for value }
{
    if value > 2147483647 {
        Kind::Unsigned
    } else {
        Kind::Int
    }
}

fn push_literal(text: &mut Vec<u8>, value: u64, kind: Kind) -> Result<(), AllocError>
    ensures { OnOk result (text.new.items ≡ text.old.items ++ lexeme_bytes (number value kind)) }
{
    let alloc = *text.allocator();
    let digits = format!(in alloc; "{value}")?;
    text.extend_from_slice(digits.as_bytes())?;
    match kind {
        Kind::Int => Ok(()),
        Kind::Unsigned => {
            text.push(b'u')?;
            Ok(())
        }
    }
}

/// A number, with the suffix `u` where it is past the greatest int.
fn push_number(text: &mut Vec<u8>, value: u64) -> Result<(), AllocError>
    ensures { OnOk result (text.new.items ≡ text.old.items ++ length_bytes value) }
{
    push_literal(text, value, kind_for(value))
}

/// A number, with `-` before it where it is negative.
#[tactic(auto, unfolding(crate::specs::Editing::Orders::constant_bytes))]
fn push_constant(text: &mut Vec<u8>, value: i64) -> Result<(), AllocError>
    ensures { OnOk result (text.new.items ≡ text.old.items ++ constant_bytes value) }
{
    if value < 0 {
        text.push(b'-')?;
    }
    push_number(text, value.unsigned_abs())
}

fn push_range(text: &mut Vec<u8>, low: i64, high: i64) -> Result<(), AllocError>
    ensures { OnOk result (text.new.items ≡ text.old.items ++ range_spelled (low, high)) }
{
    text.extend_from_slice(b" RANGE(")?;
    push_constant(text, low)?;
    text.extend_from_slice(b", ")?;
    push_constant(text, high)?;
    text.extend_from_slice(b")")?;
    Ok(())
}

/// ` RANGE(low, high)`.
pub fn range_text(alloc: Global, low: i64, high: i64) -> Result<Vec<u8>, AllocError>
    ensures { IfOk result (λ text. text.items ≡ range_spelled (low, high)) }
{
    let mut text = Vec::new(alloc);
    push_range(&mut text, low, high)?;
    Ok(text)
}

/// The literal of a length.
pub fn length_text(alloc: Global, length: u32) -> Result<Vec<u8>, AllocError>
    ensures { IfOk result (λ text. text.items ≡ length_bytes length) }
{
    let mut text = Vec::new(alloc);
    push_number(&mut text, length as u64)?;
    Ok(text)
}

fn push_region(text: &mut Vec<u8>, region: &Region) -> Result<(), AllocError>
    ensures { OnOk result (text.new.items ≡ text.old.items ++ region_spelled (region_of region.now)) }
{
    text.extend_from_slice(b" REGION(")?;
    text.extend_from_slice(region.name.bytes())?;
    text.extend_from_slice(b", ")?;
    push_number(text, region.low as u64)?;
    text.extend_from_slice(b", ")?;
    push_number(text, region.high as u64)?;
    text.extend_from_slice(b")")?;
    Ok(())
}

fn push_regions(text: &mut Vec<u8>, regions: &[Region]) -> Result<(), AllocError>
    ensures { OnOk result (text.new.items ≡ text.old.items ++ regions_spelled (map region_of regions.now)) }
{
    for region in regions {
        push_region(text, region)?;
    }
    Ok(())
}

/// ` REGION(g, low, high)` for each region.
#[tactic(auto, using(crate::proofs::EditingLemmas::Said::regions_said))]
pub fn regions_text(alloc: Global, regions: &[Region]) -> Result<Vec<u8>, AllocError>
    ensures { IfOk result (λ text. text.items ≡ regions_bytes (map region_of regions.now)) }
{
    let mut text = Vec::new(alloc);
    push_regions(&mut text, regions)?;
    Ok(text)
}
