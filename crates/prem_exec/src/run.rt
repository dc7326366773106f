// The run of an image, and what is told of it.
ghost use Rattle.std.specs.Prelude.{◌≡◌, ◌≤◌, ◌^◌, IfOk};
ghost use Rattle.prem_list.specs.Sequence.{items_of};
ghost use Rattle.prem_image.specs.Text.{image_text};
ghost use Rattle.prem_cycle.specs.Inputs.{FitsRun, setup_of, words_of};
ghost use Rattle.prem_machine.specs.States.{state_of};
ghost use Rattle.prem_answer.specs.Stages.{reply_of};
ghost use Rattle.prem_exec.specs.Exec.{input_of, run_reply, state_at, stop_at, stop_status};

use prem_answer::{Answer, Status};
use prem_cycle::Stop;
use prem_gate::RunInput;
use prem_image::Image;
use prem_lru::{Fifo, Lru, Policy};
use prem_machine::Machine;
use prem_plant::Replacement;
use prem_report::report;
use std::alloc::{AllocError, Global};

/// A run that traps has a status of its own.
pub fn stop_status(stop: Stop) -> Status
    ensures { result ≡ stop_status stop }
{
    match stop {
        Stop::Trap { .. } => Status::Trap,
        Stop::Finished | Stop::LogFull { .. } | Stop::Limit => Status::Done,
    }
}

/// The machine behind the run of an image up to a cycle, and why it stopped.
pub fn run_image<P: Policy>(
    alloc: Global,
    image: &Image,
    input: &RunInput,
    limit: u64,
) -> Result<(Machine<P>, Stop), AllocError>
    requires policy { image.now.plant.policy ≡ P.kind_of }
    requires fits { FitsRun (setup_of image.now) (words_of input.now) (items_of input.now.requests) }
    requires limit { limit ≤ 2 ^ 61 }
    ensures state { IfOk result (λ r. state_of r.0 ≡ state_at (image_text image.now) (input_of input.now) limit) }
    ensures stop { IfOk result (λ r. r.1 ≡ stop_at limit (state_at (image_text image.now) (input_of input.now) limit)) }
{
    let mut machine = Machine::<P>::new(alloc, image, input)?;
    let stop = machine.run_to(limit);
    Ok((machine, stop))
}

/// What is told of the run of an image of this policy up to a cycle, with its intervals and transfers where `times` says so.
fn answer_under<P: Policy>(
    alloc: Global,
    image: &Image,
    input: &RunInput,
    times: bool,
    limit: u64,
) -> Result<Answer, AllocError>
    requires policy { image.now.plant.policy ≡ P.kind_of }
    requires fits { FitsRun (setup_of image.now) (words_of input.now) (items_of input.now.requests) }
    requires limit { limit ≤ 2 ^ 61 }
    ensures { IfOk result (λ a. reply_of a ≡ run_reply (image_text image.now) (input_of input.now) times limit) }
{
    let (machine, stop) = run_image::<P>(alloc, image, input, limit)?;
    let text = report(
        alloc,
        image.tasks.items(),
        image.devices.items(),
        times,
        machine.now(),
        machine.facts(),
        stop,
    )?;
    Ok(Answer {
        status: stop_status(stop),
        text,
    })
}

/// What is told of the run of an image up to a cycle. The machine is that of the image's policy.
pub fn run_answer(
    alloc: Global,
    image: &Image,
    input: &RunInput,
    times: bool,
    limit: u64,
) -> Result<Answer, AllocError>
    requires fits { FitsRun (setup_of image.now) (words_of input.now) (items_of input.now.requests) }
    requires limit { limit ≤ 2 ^ 61 }
    ensures { IfOk result (λ a. reply_of a ≡ run_reply (image_text image.now) (input_of input.now) times limit) }
{
    match image.plant.policy {
        Replacement::Lru => answer_under::<Lru>(alloc, image, input, times, limit),
        Replacement::Fifo => answer_under::<Fifo>(alloc, image, input, times, limit),
    }
}
