//! What memory holds at the start of a run of placed tasks.
ghost use Rattle.std.specs.Prelude.{◌≡◌, IfOk, OnOk, length, map, replicate};
ghost use Rattle.prem_list.specs.Sequence.{items_of};
ghost use Rattle.prem_layout.specs.Image.{with_blocks, with_globals, with_tasks};
ghost use Rattle.prem_layout.specs.Placed.{blocks_of};
ghost use Rattle.prem_place.specs.Placed.PlacedOf.{placed_of};
ghost use Rattle.prem_place.specs.Imaging.Standing.{Fits, AllFit};

use crate::content::{Block, put_blocks, put_globals, zeros};
use crate::placed::PlacedTask;
use prem_list::Sequence;
use std::alloc::{AllocError, Global};

/// Puts the code and the globals of a task at their places.
#[tactic(auto, using(crate::proofs::ImagingLemmas::Words::words_are))]
fn put_task(
    alloc: Global,
    content: &mut [u8],
    task: &PlacedTask,
    blocks: &[Block],
) -> Result<(), AllocError>
    requires { Fits (length content.old) task.now blocks.now }
    ensures content { OnOk result (content.new ≡ with_globals task.now.places 0 (placed_of task.now).task.program.globals (with_blocks (blocks_of (placed_of task.now)) content.old)) }
    ensures long { length content.new ≡ length content.old }
{
    put_blocks(alloc, content, blocks)?;
    put_globals(alloc, content, &task.program.globals, &task.places)
}

/// Puts the code and the globals of all tasks at their places.
pub fn put_tasks(
    alloc: Global,
    content: &mut [u8],
    tasks: &[PlacedTask],
    blocks: &[Vec<Block>],
) -> Result<(), AllocError>
    requires { AllFit (length content.old) tasks.now (map (λ bs. bs.items) blocks.now) }
    ensures content { OnOk result (content.new ≡ with_tasks (map placed_of tasks.now) content.old) }
    ensures long { length content.new ≡ length content.old }
{
    for n in 0..tasks.len() {
        put_task(alloc, content, &tasks[n], &blocks[n])?;
    }
    Ok(())
}

/// So many bytes, with the code and the globals of all tasks at their places, and else 0.
pub fn task_bytes(
    alloc: Global,
    end: usize,
    tasks: &[PlacedTask],
    blocks: &[Vec<Block>],
) -> Result<Sequence<u8>, AllocError>
    requires { AllFit end tasks.now (map (λ bs. bs.items) blocks.now) }
    ensures content { IfOk result (λ content. items_of content ≡ with_tasks (map placed_of tasks.now) (replicate end 0)) }
    ensures long { IfOk result (λ content. length (items_of content) ≡ end) }
{
    let mut content = zeros(alloc, end)?;
    put_tasks(alloc, content.items_mut(), tasks, blocks)?;
    Ok(content)
}
