// The content of memory, part by part.
ghost use Rattle.std.specs.Prelude.{◌≡◌, ◌≤◌, IfOk, OnOk, length, map, replicate};
ghost use Rattle.std.specs.List.{AllByRecursion};
ghost use Rattle.prem_list.specs.Sequence.{items_of};
ghost use Rattle.prem_syntax.specs.SyntaxOf.{global_of};
ghost use Rattle.prem_layout.specs.Image.{with_globals};
ghost use Rattle.prem_place.specs.Content.Blocks.{block_of, EndsBy, with_words, HasGlobals};

use crate::content::bytes::{bytes_of, global_bytes};
use crate::content::patch::patch;
use prem_foot::TaskPlaces;
use prem_list::Sequence;
use prem_syntax::Global;
use std::alloc::{AllocError, Global as Allocator};

/// The words of code from an address on.
#[derive(Debug, Drop)]
pub struct Block {
    pub at: u32,
    pub words: Vec<u32>,
}

/// So many bytes that are 0.
pub fn zeros(alloc: Allocator, count: usize) -> Result<Sequence<u8>, AllocError>
    ensures { IfOk result (λ bytes. items_of bytes ≡ replicate count 0) }
{
    let mut bytes = Sequence::with_room(alloc, count)?;
    'zeros: for _ in 0..count {
        bytes.put(0);
    }
    Ok(bytes)
}

/// Puts the code of blocks at its place.
pub fn put_blocks(alloc: Allocator, content: &mut [u8], blocks: &[Block]) -> Result<(), AllocError>
    requires { AllByRecursion (EndsBy (length content.old)) blocks.now }
    ensures content { OnOk result (content.new ≡ with_words (map block_of blocks.now) content.old) }
    ensures long { length content.new ≡ length content.old }
{
    for block in blocks {
        let bytes = bytes_of(alloc, &block.words)?;
        patch(content, block.at as usize, &bytes);
    }
    Ok(())
}

/// Puts the initial bytes of a task's globals at their places.
pub fn put_globals(
    alloc: Allocator,
    content: &mut [u8],
    globals: &[&Global],
    places: &TaskPlaces,
) -> Result<(), AllocError>
    requires count { length globals.now ≤ 65536 }
    requires within { HasGlobals (length content.old) places.now 0 (map (λ g. global_of g.now) globals.now) }
    ensures content { OnOk result (content.new ≡ with_globals places.now 0 (map (λ g. global_of g.now) globals.now) content.old) }
    ensures long { length content.new ≡ length content.old }
{
    for n in 0..globals.len() {
        let bytes = global_bytes(alloc, globals[n])?;
        let (at, _) = places.global_range(n as u16);
        patch(content, at as usize, &bytes);
    }
    Ok(())
}
