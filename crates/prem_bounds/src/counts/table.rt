// The counts of functions, one after another: a function calls those before it.
ghost use Rattle.std.specs.Prelude.{◌≡◌, [], IfOk, slice_index};
ghost use Rattle.prem_list.specs.Sequence.{items_of};
ghost use Rattle.prem_tree.specs.Resolve.ResolvedOf.{resolved_of};
ghost use Rattle.prem_layout.specs.Counts.{outputs_of, marked_calls_of};
ghost use Rattle.prem_bounds.specs.Counts.Count.{clipped, mark_of, counts_behind};

use crate::counts::count::count_of;
use crate::counts::sum::plus;
use prem_tree::resolve::{Resolved, Routine};
use std::alloc::{AllocError, Global};

/// What a call of a function counts for its mark.
fn mark_of(f: &Routine, mark: u32) -> u32
    ensures { result ≡ mark_of mark f.now }
{
    match f.text.mark {
        Some(_) => mark,
        None => 0,
    }
}

/// What a call of each function counts, where an output and a marked call count so much.
fn counts(
    alloc: Global,
    fs: &[Routine],
    output: u32,
    mark: u32,
    turns: &[u32],
) -> Result<Vec<u64>, AllocError>
    ensures { IfOk result (λ known. known.items ≡ counts_behind output mark [] turns.now fs.now) }
{
    let mut known = Vec::new(alloc);
    let mut rest = turns;
    for f in fs {
        let one = count_of(&f.body, output, &known, rest);
        known.push(plus(u64::from(mark_of(f, mark)), one.count))?;
        rest = one.rest;
    }
    Ok(known)
}

/// The count of `job`.
fn count_of_job(
    alloc: Global,
    r: &Resolved,
    output: u32,
    mark: u32,
    turns: &[u32],
) -> Result<u64, AllocError>
    ensures { IfOk result (λ n. n ≡ slice_index (counts_behind output mark [] turns.now (items_of r.now.routines)) r.now.job) }
{
    let counts = counts(alloc, r.routines.items(), output, mark, turns)?;
    Ok(counts.get(r.job).copied().unwrap_or(0))
}

/// The outputs that a job gives at most, told up to 2^32, where the counting loops have these turns.
#[tactic(auto, using(crate::proofs::CountsLemmas::Below::outputs_are))]
pub fn outputs(alloc: Global, r: &Resolved, turns: &[u32]) -> Result<u64, AllocError>
    ensures { IfOk result (λ n. n ≡ clipped (outputs_of (resolved_of (slice_index turns.now) r.now))) }
{
    count_of_job(alloc, r, 1, 0, turns)
}

/// The marked calls that a job makes at most, told up to 2^32, where the counting loops have these turns.
#[tactic(auto, using(crate::proofs::CountsLemmas::Below::marked_calls_are))]
pub fn marked_calls(alloc: Global, r: &Resolved, turns: &[u32]) -> Result<u64, AllocError>
    ensures { IfOk result (λ n. n ≡ clipped (marked_calls_of (resolved_of (slice_index turns.now) r.now))) }
{
    count_of_job(alloc, r, 0, 1, turns)
}
