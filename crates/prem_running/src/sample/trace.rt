// The set of a sample, and what comes to its run.
ghost use Rattle.std.specs.Prelude.{◌≡◌, ◌≤◌, ◌++◌, [], ◌∷◌, ◌+◌, IfOk, OnOk, map};
ghost use Rattle.prem_list.specs.Sequence.{items_of};
ghost use Rattle.prem_plant.specs.declared.plant.Device.{Device};
ghost use Rattle.prem_tasks.specs.SetOf.{set_of, task_of};
ghost use Rattle.prem_set.specs.Run.Views.{lists_of};
ghost use Rattle.prem_exec.specs.Exec.{input_of};
ghost use Rattle.prem_running.specs.Sample.Draws.{after, next, numbers};
ghost use Rattle.prem_running.specs.Sample.Trace.{behind_task, behind_tasks, device_named, request_at, requests_from, sample_devices, sample_run, sample_set, task_at, task_names, tasks_from, words_from};

use crate::sample::draws::Draws;
use crate::sample::program::program_text;
use prem_compile::{TaskSet, TaskText};
use prem_gate::{Request, RunInput};
use prem_list::Sequence;
use prem_plant::{Device, Label, default_plant};
use std::alloc::{AllocError, Global};

/// How many requests come.
const REQUESTS: usize = 1000;

/// A set, and what comes to its run.
#[derive(Drop)]
pub struct Sample {
    pub set: TaskSet,
    pub input: RunInput,
}

/// Tasks, and the input words of each.
#[derive(Drop)]
pub struct Drawn {
    pub tasks: Sequence<TaskText>,
    pub words: Sequence<Sequence<u32>>,
}

/// A task of two jobs: a filter with the next coefficients.
fn draw_task(alloc: Global, draws: &mut Draws, name: &str) -> Result<TaskText, AllocError>
    ensures task { IfOk result (λ t. task_of t ≡ task_at name.now draws.old.state) }
    ensures state { OnOk result (draws.new.state ≡ after 16 draws.old.state) }
{
    let coefficients = draws.words(alloc, 100, 16)?;
    Ok(TaskText {
        name: Label::new(alloc, name)?,
        text: program_text(alloc, coefficients.items())?,
        period: 2_100_000,
        jobs: 2,
    })
}

/// Puts a further task with its input words behind the others.
fn push_task(
    alloc: Global,
    draws: &mut Draws,
    name: &str,
    all: &mut Drawn,
) -> Result<(), AllocError>
    ensures tasks { OnOk result (map task_of (items_of all.new.tasks) ≡ map task_of (items_of all.old.tasks) ++ task_at name.now draws.old.state ∷ []) }
    ensures words { OnOk result (lists_of all.new.words ≡ lists_of all.old.words ++ numbers 200 160 (after 16 draws.old.state) ∷ []) }
    ensures state { OnOk result (draws.new.state ≡ behind_task draws.old.state) }
{
    let task = draw_task(alloc, draws, name)?;
    let words = draws.words(alloc, 200, 160)?;
    all.tasks.push(task)?;
    all.words.push(words)
}

/// The four tasks with their input words.
fn draw_tasks(alloc: Global, draws: &mut Draws) -> Result<Drawn, AllocError>
    ensures tasks { IfOk result (λ all. map task_of (items_of all.tasks) ≡ tasks_from task_names draws.old.state) }
    ensures words { IfOk result (λ all. lists_of all.words ≡ words_from task_names draws.old.state) }
    ensures state { OnOk result (draws.new.state ≡ behind_tasks task_names draws.old.state) }
{
    let mut all = Drawn {
        tasks: Sequence::new(alloc),
        words: Sequence::new(alloc),
    };
    push_task(alloc, draws, "t0", &mut all)?;
    push_task(alloc, draws, "t1", &mut all)?;
    push_task(alloc, draws, "t2", &mut all)?;
    push_task(alloc, draws, "t3", &mut all)?;
    Ok(all)
}

/// The next request, behind one that comes in cycle `before`.
fn draw_request(draws: &mut Draws, before: u64) -> Request
    requires { before ≤ 4000000 }
    ensures request { result ≡ request_at before draws.old.state }
    ensures later { result.cycle ≤ before + 3999 }
    ensures state { draws.new.state ≡ next (next (next (next draws.old.state))) }
{
    let gap = draws.draw(4000);
    let device = draws.draw(2);
    let line = draws.draw(4);
    let value = draws.draw(65_536);
    Request {
        cycle: before + u64::from(gap),
        device,
        line: u32::from(line),
        put: Some(u32::from(value)),
    }
}

/// So many requests, one behind another.
fn draw_requests(
    alloc: Global,
    draws: &mut Draws,
    count: usize,
) -> Result<Sequence<Request>, AllocError>
    requires { count ≤ 1000 }
    ensures { IfOk result (λ all. items_of all ≡ requests_from count 0 draws.old.state) }
{
    let mut all = Sequence::new(alloc);
    let mut last = 0;
    'requests: for _ in 0..count {
        let request = draw_request(draws, last);
        last = request.cycle;
        all.push(request)?;
    }
    Ok(all)
}

/// A device of this cost.
fn device_named(alloc: Global, name: &str, cost: u32) -> Result<Device, AllocError>
    ensures { IfOk result (λ d. d ≡ device_named name.now cost) }
{
    Ok(Device {
        name: Label::new(alloc, name)?,
        queue: 16,
        cost,
        lines: 4,
    })
}

/// The two devices.
fn sample_devices(alloc: Global) -> Result<Sequence<Device>, AllocError>
    ensures { IfOk result (λ devices. items_of devices ≡ sample_devices) }
{
    let mut devices = Sequence::new(alloc);
    devices.push(device_named(alloc, "dma", 40)?)?;
    devices.push(device_named(alloc, "nic", 60)?)?;
    Ok(devices)
}

/// The set and what comes to its run, by the seed. It fails only for want of memory.
pub fn draw_sample(alloc: Global, seed: u64) -> Result<Sample, AllocError>
    ensures set { IfOk result (λ s. set_of s.set ≡ sample_set seed) }
    ensures input { IfOk result (λ s. input_of s.input ≡ sample_run seed) }
{
    let mut draws = Draws { state: seed };
    let drawn = draw_tasks(alloc, &mut draws)?;
    let requests = draw_requests(alloc, &mut draws, REQUESTS)?;
    let devices = sample_devices(alloc)?;
    let set = TaskSet::new(default_plant(), devices, drawn.tasks).unwrap();
    Ok(Sample {
        set,
        input: RunInput {
            words: drawn.words,
            requests,
        },
    })
}
