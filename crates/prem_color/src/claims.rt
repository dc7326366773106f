// The ranges of wants, by the parts in which they lie.
ghost use Rattle.std.specs.Prelude.{◌≡◌, IfOk, OnOk, length, map, replicate, []};
ghost use Rattle.prem_color.specs.Claims.{by_parts, claims_from, grouped, leading, share_of, with_claim, with_claims};
ghost use Rattle.prem_color.specs.WantOf.{ranges_in};

use prem_foot::Want;
use std::alloc::{AllocError, Global};

/// A range of bytes: the number of a part, the first byte and the end within it.
pub(crate) type PartRange = (u32, u32, u32);

/// A range, and the number of the want that names it.
#[derive(Clone, Copy)]
pub(crate) struct Claim {
    pub want: usize,
    pub range: PartRange,
}

/// The ranges of one want in one part.
#[derive(Drop)]
pub(crate) struct Share {
    pub want: usize,
    pub own: Vec<PartRange>,
}

/// Counts each range to its part, if there is such a part.
fn count_ranges(counts: &mut Vec<usize>, ranges: &[PartRange])
    ensures { length counts.new.items ≡ length counts.old.items }
{
    for range in ranges {
        let part = range.0 as usize;
        if part < counts.len() {
            counts[part] = counts[part].saturating_add(1);
        }
    }
}

/// How many ranges lie in each part, which is how much room its list takes.
fn counts_by_part(alloc: Global, parts: usize, wants: &[Want]) -> Result<Vec<usize>, AllocError>
    ensures { IfOk result (λ counts. length counts.items ≡ parts) }
{
    let mut counts = vec![in alloc; 0; parts]?;
    for want in wants {
        count_ranges(&mut counts, want.ranges.items());
    }
    Ok(counts)
}

/// A list without claims for each part, with room for as many as are counted.
fn no_claims(alloc: Global, counts: &[usize]) -> Result<Vec<Vec<Claim>>, AllocError>
    ensures { IfOk result (λ index. map (λ own. own.items) index.items ≡ replicate (length counts.now) []) }
{
    let mut index = Vec::with_capacity(alloc, counts.len())?;
    for count in counts {
        index.push(Vec::with_capacity(alloc, *count)?)?;
    }
    Ok(index)
}

/// Puts a claim behind those of its part, if there is such a part.
fn push_claim(index: &mut Vec<Vec<Claim>>, claim: Claim) -> Result<(), AllocError>
    ensures { OnOk result (map (λ own. own.items) index.new.items ≡ with_claim claim.range.0 claim (map (λ own. own.items) index.old.items)) }
{
    let part = claim.range.0 as usize;
    if part < index.len() {
        index[part].push(claim)?;
    }
    Ok(())
}

/// Puts the ranges of a want behind those of their parts.
fn push_claims(
    index: &mut Vec<Vec<Claim>>,
    want: usize,
    ranges: &[PartRange],
) -> Result<(), AllocError>
    ensures { OnOk result (map (λ own. own.items) index.new.items ≡ with_claims want ranges.now (map (λ own. own.items) index.old.items)) }
{
    for range in ranges {
        push_claim(
            index,
            Claim {
                want,
                range: *range,
            },
        )?;
    }
    Ok(())
}

/// The ranges of all wants by their parts, of which there are so many: for each part its own in the order of wants. It takes two passes over the ranges.
pub(crate) fn claims_by_part(
    alloc: Global,
    parts: usize,
    wants: &[Want],
) -> Result<Vec<Vec<Claim>>, AllocError>
    ensures each { IfOk result (λ index. map (λ own. own.items) index.items ≡ by_parts parts (claims_from 0 (ranges_in wants.now))) }
    ensures count { IfOk result (λ index. length index.items ≡ parts) }
{
    let counts = counts_by_part(alloc, parts, wants)?;
    let mut index = no_claims(alloc, &counts)?;
    for k in 0..wants.len() {
        push_claims(&mut index, k, wants[k].ranges.items())?;
    }
    Ok(index)
}

/// The ranges of the claims at the head of a list that are of one want.
fn leading(alloc: Global, claims: &[Claim], want: usize) -> Result<Vec<PartRange>, AllocError>
    ensures { IfOk result (λ own. own.items ≡ leading want claims.now) }
{
    let mut own = Vec::new(alloc);
    for claim in claims {
        if claim.want != want {
            break;
        }
        own.push(claim.range)?;
    }
    Ok(own)
}

/// The claims of a part, together where they are of the same want.
pub(crate) fn shares_of(alloc: Global, claims: &[Claim]) -> Result<Vec<Share>, AllocError>
    ensures { IfOk result (λ shares. map share_of shares.items ≡ grouped claims.now) }
{
    let mut shares = Vec::new(alloc);
    let mut at = 0;
    while at < claims.len() {
        let want = claims[at].want;
        let own = leading(alloc, &claims[at..], want)?;
        at += own.len();
        shares.push(Share { want, own })?;
    }
    Ok(shares)
}
