// Run files of an image.
ghost use Rattle.std.specs.Prelude.{◌≤◌, IfOk, length};
ghost use Rattle.prem_list.specs.Sequence.{items_of};
ghost use Rattle.prem_cycle.specs.Inputs.{FitsRun, setup_of, words_of};
ghost use Rattle.prem_set.specs.Run.Run.{run_of};
ghost use Rattle.prem_set.specs.Run.Views.{GivesRun};
ghost use Rattle.prem_report.specs.Fitting.Named.{RunFilesFit, names_in};

use crate::fitting::names::names_of_image;
use prem_gate::RunInput;
use prem_image::Image;
use prem_set::run::{RunFail, read_run};
use std::alloc::Global;

/// What a run file gives by the names of an image fits each machine with these tasks and devices.
pub fn run_files_fit()
    ensures { RunFilesFit }
{}

/// Reads a run file of an image. What is read fits a run of the image.
///
/// `Line` tells the first line that is refused and why; `OutOfMemory` comes only for want of memory.
#[tactic(auto, using(crate::proofs::FittingLemmas::Fits::read_fits))]
pub fn read_run_of(alloc: Global, bytes: &[u8], image: &Image) -> Result<RunInput, RunFail>
    requires { length bytes.now ≤ 4194304 }
    ensures exact { GivesRun result (run_of bytes.now (names_in image.now)) }
    ensures fits { IfOk result (λ input. FitsRun (setup_of image.now) (words_of input) (items_of input.requests)) }
{
    let names = names_of_image(alloc, image)?;
    read_run(alloc, bytes, &names)
}
