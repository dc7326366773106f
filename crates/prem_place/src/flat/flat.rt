// The words of parts with code.
ghost use Rattle.std.specs.Prelude.{◌≡◌, ◌+◌, ◌++◌, ◌∷◌, [], ◌≤◌, ◌%◌, ◌^◌, ◌<◌, None, All, IsSome, OnOk, IfOk, MatchResult, length, map, slice_index};
ghost use Rattle.std.specs.List.{AllByRecursion};
ghost use Rattle.prem_list.specs.Sequence.{items_of};
ghost use Rattle.prem_asm.specs.Fit.{PiecesFit};
ghost use Rattle.prem_asm.specs.Pieces.{size_of};
ghost use Rattle.prem_asm.specs.PiecesOf.{pieces_of};
ghost use Rattle.prem_layout.specs.Bounds.{start_code};
ghost use Rattle.prem_place.specs.Flat.Blocks.{code_parts};
ghost use Rattle.prem_place.specs.Content.Blocks.{block_of};
ghost use Rattle.prem_place.specs.Flat.Flat.{listed, far_in, part_if, lower_part, lowest_far, words_at, far_part, words_from, EndWithin, AreFit, Blames};

use crate::content::Block;
use prem_asm::{AsmFail, Instr, Piece, flatten, put_call, put_code};
use prem_line::Failing;
use prem_list::Sequence;
use prem_plant::FnId;
use std::alloc::{AllocError, Global};

/// Why parts have no words: the code of the part with this number, among those of its task, has a jump out of reach, or there was no
/// memory.
pub type FlatFail = Failing<usize>;

/// The words of one part at its place.
fn block(alloc: Global, pieces: &[Piece], part: usize, starts: &[u32]) -> Result<Block, FlatFail>
    requires fit { PiecesFit (length starts.now) (slice_index starts.now) (pieces_of pieces.now) }
    requires there { part < length starts.now }
    requires aligned { All (λ start. start % 4 ≡ 0) starts.now }
    requires within { slice_index starts.now part + size_of (pieces_of pieces.now) ≤ 2 ^ 32 }
    ensures words { IfOk result (λ b. block_of b ≡ words_at (slice_index starts.now) part (pieces_of pieces.now)) }
    ensures far { MatchResult result (λ _. far_in (slice_index starts.now) part (pieces_of pieces.now) ≡ None) (Blames (part_if part (far_in (slice_index starts.now) part (pieces_of pieces.now)) None)) }
{
    let at = starts[part];
    match flatten(alloc, pieces, at, starts) {
        Ok(words) => Ok(Block { at, words }),
        Err(AsmFail::Reach) => Err(FlatFail::Refused(part)),
        Err(AsmFail::OutOfMemory) => Err(FlatFail::OutOfMemory),
    }
}

/// Puts the words of parts, from number `first` on, behind other blocks.
pub fn put_parts(
    alloc: Global,
    blocks: &mut Vec<Block>,
    all: &[Sequence<Piece>],
    first: usize,
    starts: &[u32],
) -> Result<(), FlatFail>
    requires fit { AllByRecursion (PiecesFit (length starts.now) (slice_index starts.now)) (listed all.now) }
    requires there { first + length all.now ≤ length starts.now }
    requires aligned { All (λ start. start % 4 ≡ 0) starts.now }
    requires within { EndWithin (slice_index starts.now) first (listed all.now) }
    ensures words { OnOk result (map block_of blocks.new.items ≡ map block_of blocks.old.items ++ words_from (slice_index starts.now) first (listed all.now)) }
    ensures far { MatchResult result (λ _. far_part (slice_index starts.now) first (listed all.now) ≡ None) (Blames (far_part (slice_index starts.now) first (listed all.now))) }
{
    let mut part = first;
    for pieces in all {
        blocks.push(block(alloc, pieces.items(), part, starts)?)?;
        part += 1;
    }
    Ok(())
}

/// The start of a task: a call of `job`, and the job's end.
fn start(alloc: Global, job: FnId) -> Result<Sequence<Sequence<Piece>>, AllocError>
    ensures { IfOk result (λ parts. listed (items_of parts) ≡ start_code job ∷ []) }
{
    let mut pieces = Sequence::new(alloc);
    put_call(&mut pieces, 1, 1 + u32::from(job))?;
    put_code(alloc, &mut pieces, &[Instr::PmDone])?;
    let mut parts = Sequence::new(alloc);
    parts.push(pieces)?;
    Ok(parts)
}

/// The words of a task's start, functions and stubs, which are its first parts; part n starts at the n-th of the addresses.
#[tactic(auto, using(crate::proofs::FlatLemmas::Flats::first_blamed, crate::proofs::FlatLemmas::Flats::second_blamed, crate::proofs::FlatLemmas::Flats::third_blamed, crate::proofs::FlatLemmas::Flats::none_far, crate::proofs::FlatLemmas::Flats::words_join, crate::proofs::FlatLemmas::Flats::listed_long))]
fn put_all(
    alloc: Global,
    first: &[Sequence<Piece>],
    code: &[Sequence<Piece>],
    stubs: &[Sequence<Piece>],
    starts: &[u32],
) -> Result<Vec<Block>, FlatFail>
    requires fit { AreFit starts.now (listed first.now) (listed code.now) (listed stubs.now) }
    requires one { length first.now ≡ 1 }
    requires there { 1 + length code.now + length stubs.now ≤ length starts.now }
    requires small { length starts.now < 2 ^ 32 }
    requires aligned { All (λ start. start % 4 ≡ 0) starts.now }
    ensures words { IfOk result (λ blocks. map block_of blocks.items ≡ words_from (slice_index starts.now) 0 (listed first.now ++ (listed code.now ++ listed stubs.now))) }
    ensures far { MatchResult result (λ _. far_part (slice_index starts.now) 0 (listed first.now ++ (listed code.now ++ listed stubs.now)) ≡ None) (Blames (far_part (slice_index starts.now) 0 (listed first.now ++ (listed code.now ++ listed stubs.now)))) }
{
    let mut blocks = Vec::new(alloc);
    match put_parts(alloc, &mut blocks, first, 0, starts) {
        Ok(()) => (),
        Err(e) => return Err(e),
    }
    match put_parts(alloc, &mut blocks, code, 1, starts) {
        Ok(()) => (),
        Err(e) => return Err(e),
    }
    match put_parts(alloc, &mut blocks, stubs, 1 + code.len(), starts) {
        Ok(()) => Ok(blocks),
        Err(e) => Err(e),
    }
}

/// Where a part starts.
fn start_of(starts: &[u32], part: usize) -> u32
    ensures { result ≡ slice_index starts.now part }
{
    starts.get(part).copied().unwrap_or(0)
}

/// Of two parts the one that starts lower: of two that start together, the first one.
fn lower(a: Option<usize>, b: Option<usize>, starts: &[u32]) -> Option<usize>
    ensures { result ≡ lower_part (slice_index starts.now) a b }
{
    match (a, b) {
        (None, other) => other,
        (Some(part), None) => Some(part),
        (Some(part), Some(other)) => {
            if start_of(starts, other) < start_of(starts, part) {
                Some(other)
            } else {
                Some(part)
            }
        }
    }
}

/// The part, if it has a jump out of reach.
fn far(
    alloc: Global,
    pieces: &[Piece],
    part: usize,
    starts: &[u32],
) -> Result<Option<usize>, AllocError>
    requires fit { PiecesFit (length starts.now) (slice_index starts.now) (pieces_of pieces.now) }
    requires there { part < length starts.now }
    requires aligned { All (λ start. start % 4 ≡ 0) starts.now }
    requires within { slice_index starts.now part + size_of (pieces_of pieces.now) ≤ 2 ^ 32 }
    ensures { IfOk result (λ o. o ≡ part_if part (far_in (slice_index starts.now) part (pieces_of pieces.now)) None) }
{
    match block(alloc, pieces, part, starts) {
        Ok(_) => Ok(None),
        Err(FlatFail::Refused(part)) => Ok(Some(part)),
        Err(FlatFail::OutOfMemory) => Err(AllocError),
    }
}

/// Of a part that is found, and of those parts from number `first` on that have a jump out of reach, the one that starts lowest.
#[tactic(auto, using(crate::proofs::FlatLemmas::Flats::lower_joins, crate::proofs::FlatLemmas::Flats::lower_none))]
fn lowest_of(
    alloc: Global,
    found: Option<usize>,
    all: &[Sequence<Piece>],
    first: usize,
    starts: &[u32],
) -> Result<Option<usize>, AllocError>
    requires fit { AllByRecursion (PiecesFit (length starts.now) (slice_index starts.now)) (listed all.now) }
    requires there { first + length all.now ≤ length starts.now }
    requires aligned { All (λ start. start % 4 ≡ 0) starts.now }
    requires within { EndWithin (slice_index starts.now) first (listed all.now) }
    ensures { IfOk result (λ o. o ≡ lower_part (slice_index starts.now) found (lowest_far (slice_index starts.now) first (listed all.now))) }
{
    let mut lowest = found;
    let mut part = first;
    for pieces in all {
        lowest = lower(lowest, far(alloc, pieces.items(), part, starts)?, starts);
        part += 1;
    }
    Ok(lowest)
}

/// Of all parts that have a jump out of reach the one that starts lowest.
#[tactic(auto, using(crate::proofs::FlatLemmas::Flats::lowest_join, crate::proofs::FlatLemmas::Flats::listed_long))]
fn lowest_of_all(
    alloc: Global,
    first: &[Sequence<Piece>],
    code: &[Sequence<Piece>],
    stubs: &[Sequence<Piece>],
    starts: &[u32],
) -> Result<Option<usize>, AllocError>
    requires fit { AreFit starts.now (listed first.now) (listed code.now) (listed stubs.now) }
    requires one { length first.now ≡ 1 }
    requires there { 1 + length code.now + length stubs.now ≤ length starts.now }
    requires small { length starts.now < 2 ^ 32 }
    requires aligned { All (λ start. start % 4 ≡ 0) starts.now }
    ensures { IfOk result (λ o. o ≡ lowest_far (slice_index starts.now) 0 (listed first.now ++ (listed code.now ++ listed stubs.now))) }
{
    let found = lowest_of(alloc, None, first, 0, starts)?;
    let found = lowest_of(alloc, found, code, 1, starts)?;
    lowest_of(alloc, found, stubs, 1 + code.len(), starts)
}

/// Which part is blamed, where one has a jump out of reach.
#[tactic(auto, using(crate::proofs::FlatLemmas::Flats::none_lowest))]
fn blamed(
    alloc: Global,
    first: &[Sequence<Piece>],
    code: &[Sequence<Piece>],
    stubs: &[Sequence<Piece>],
    starts: &[u32],
) -> FlatFail
    requires fit { AreFit starts.now (listed first.now) (listed code.now) (listed stubs.now) }
    requires one { length first.now ≡ 1 }
    requires there { 1 + length code.now + length stubs.now ≤ length starts.now }
    requires small { length starts.now < 2 ^ 32 }
    requires aligned { All (λ start. start % 4 ≡ 0) starts.now }
    requires some { IsSome (far_part (slice_index starts.now) 0 (listed first.now ++ (listed code.now ++ listed stubs.now))) }
    ensures { Blames (lowest_far (slice_index starts.now) 0 (listed first.now ++ (listed code.now ++ listed stubs.now))) result }
{
    match lowest_of_all(alloc, first, code, stubs, starts) {
        Ok(Some(part)) => FlatFail::Refused(part),
        Ok(None) => unreachable!(),
        Err(_) => FlatFail::OutOfMemory,
    }
}

/// The words of a task's start, functions and stubs, which are its first parts; part n starts at the n-th of the addresses.
///
/// It is refused exactly where a jump is out of reach, with the part that starts lowest, of those that have one.
#[tactic(auto, using(crate::proofs::FlatLemmas::Flats::lowest_none))]
pub fn flatten_parts(
    alloc: Global,
    job: FnId,
    code: &[Sequence<Piece>],
    stubs: &[Sequence<Piece>],
    starts: &[u32],
) -> Result<Vec<Block>, FlatFail>
    requires fit { AreFit starts.now (start_code job ∷ []) (listed code.now) (listed stubs.now) }
    requires there { 1 + length code.now + length stubs.now ≤ length starts.now }
    requires small { length starts.now < 2 ^ 32 }
    requires aligned { All (λ start. start % 4 ≡ 0) starts.now }
    ensures words { IfOk result (λ blocks. map block_of blocks.items ≡ words_from (slice_index starts.now) 0 (code_parts job (listed code.now) (listed stubs.now))) }
    ensures far { MatchResult result (λ _. lowest_far (slice_index starts.now) 0 (code_parts job (listed code.now) (listed stubs.now)) ≡ None) (Blames (lowest_far (slice_index starts.now) 0 (code_parts job (listed code.now) (listed stubs.now)))) }
{
    let first = start(alloc, job)?;
    match put_all(alloc, first.items(), code, stubs, starts) {
        Ok(blocks) => Ok(blocks),
        Err(FlatFail::Refused(_)) => Err(blamed(alloc, first.items(), code, stubs, starts)),
        Err(FlatFail::OutOfMemory) => Err(FlatFail::OutOfMemory),
    }
}
