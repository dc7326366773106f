// The picture of the run of a compiled set.
ghost use Rattle.std.specs.Prelude.{◌≡◌, ◌≤◌, ◌^◌, IfOk, IsErrOf, None, length};
ghost use Rattle.prem_io.specs.Counts.{Rose};
ghost use Rattle.prem_running.specs.Tellings.{told_stages};
ghost use Rattle.prem_list.specs.Sequence.{items_of};
ghost use Rattle.prem_image.specs.Text.{image_text};
ghost use Rattle.prem_cycle.specs.Inputs.{FitsRun, setup_of, words_of};
ghost use Rattle.prem_command.specs.Chart.{chart_asked};
ghost use Rattle.prem_tasks.specs.Broken.{broken};
ghost use Rattle.prem_tasks.specs.SetOf.{set_of};
ghost use Rattle.prem_answer.specs.Stages.{Comes, IsGiven, reply_of};
ghost use Rattle.prem_answer.specs.declared.status.Status.TheVariants.{Done};
ghost use Rattle.prem_compile.specs.CompiledOf.{IsCompiled, compiled_of};
ghost use Rattle.prem_running.specs.Running.{run_limit};
ghost use Rattle.prem_exec.specs.Sources.Sources.{input_of};
ghost use Rattle.prem_time.specs.Words.{AreDistances};
ghost use Rattle.prem_time.specs.Asked.{distances_in};
ghost use Rattle.prem_time.specs.Stages.{unknown_reply};
ghost use Rattle.prem_chart.specs.Places.{IsView};
ghost use Rattle.prem_chart.specs.Asked.{asked_in};
ghost use Rattle.prem_chart.specs.Answer.{chart_tells, image_chart, promised, reply_by, stray_reply, view_of};
ghost use Rattle.prem_time.specs.Devices.{unknown_in};
ghost use Rattle.prem_chart.specs.Keeping.{stray_in};

use crate::keeping::stray_in;
use crate::picture::chart;
use crate::tracing::trace;
use crate::view::View;
use crate::words::PictureAsked;
use prem_answer::{Answer, Halt, Status};
use prem_command::chart::ChartWords;
use prem_compile::{Compiled, TaskSet};
use prem_gate::{Request, RunInput};
use prem_image::Image;
use prem_io::Store;
use prem_lru::Policy;
use prem_plant::Device;
use prem_running::{Teller, run_limit, tell_files};
use prem_time::{Distance, Promise, promises_of, unknown_in};
use std::alloc::{AllocError, Global};

/// The cycle behind the last one that a picture can show.
const LAST_SHOWN: u64 = 1 << 50;

/// The cycles that are shown of a run of so many cycles.
fn view_of(from: Option<u64>, to: Option<u64>, cycles: u64) -> View
    ensures is { result ≡ view_of from to cycles }
    ensures view { IsView result }
{
    let first = from.unwrap_or(0).min(LAST_SHOWN - 1);
    let behind = to.unwrap_or(cycles).max(first + 1).min(LAST_SHOWN);
    View { first, behind }
}

/// The picture of the run of an image up to a cycle. Its machine is that of this policy.
fn chart_under<P: Policy>(
    alloc: Global,
    asked: &ChartWords,
    image: &Image,
    input: &RunInput,
    promises: &[Promise],
    limit: u64,
) -> Result<Vec<u8>, AllocError>
    requires policy { image.now.plant.policy ≡ P.kind_of }
    requires fits { FitsRun (setup_of image.now) (words_of input.now) (items_of input.now.requests) }
    requires promises { length promises.now ≤ 8 }
    requires limit { limit ≤ 2 ^ 61 }
    ensures { IfOk result (λ text. text.items ≡ image_chart (chart_asked asked.now) (image_text image.now) (input_of input.now) promises.now limit) }
{
    let traced = trace::<P>(alloc, image, input, limit)?;
    let cycles = traced.machine.now();
    chart(
        alloc,
        view_of(asked.from, asked.to, cycles),
        asked.set,
        image.tasks.items(),
        image.devices.items(),
        traced.machine.facts(),
        cycles,
        traced.stop,
        &traced.notes,
        input.requests.items(),
        promises,
    )
}

/// What is promised to the devices that are named.
#[tactic(auto, using(crate::proofs::Asking::promised_some))]
fn promised(
    alloc: Global,
    set: &TaskSet,
    distances: &[Distance],
) -> Result<Vec<Promise>, AllocError>
    requires distances { AreDistances (distances_in distances.now) }
    requires lawful { broken (set_of set.now) ≡ None }
    ensures promises { IfOk result (λ all. all.items ≡ promised (set_of set.now) (distances_in distances.now)) }
    ensures few { IfOk result (λ all. length all.items ≤ 8) }
{
    match distances {
        [] => Ok(Vec::new(alloc)),
        [_, ..] => promises_of(alloc, set, distances),
    }
}

/// The answer to a set that has no device of this name.
fn unknown(alloc: Global, name: &[u8]) -> Result<Answer, AllocError>
    ensures { IfOk result (λ a. reply_of a ≡ unknown_reply name.now) }
{
    let mut text = b"refused * device ".to_vec(alloc)?;
    text.extend_from_slice(name)?;
    text.extend_from_slice(b"\n")?;
    Ok(Answer {
        status: Status::Refused,
        text,
    })
}

/// The answer to a run file with requests of this device that don't keep their distance.
fn stray(alloc: Global, name: &[u8]) -> Result<Answer, AllocError>
    ensures { IfOk result (λ a. reply_of a ≡ stray_reply name.now) }
{
    let mut text = b"refused * requests ".to_vec(alloc)?;
    text.extend_from_slice(name)?;
    text.extend_from_slice(b"\n")?;
    Ok(Answer {
        status: Status::Refused,
        text,
    })
}

/// The picture of the run of a compiled set, with what is promised.
fn drawn<P: Policy>(
    alloc: Global,
    asked: &PictureAsked,
    set: &TaskSet,
    input: &RunInput,
    compiled: &Compiled,
) -> Result<Answer, AllocError>
    requires policy { compiled.now.image.plant.policy ≡ P.kind_of }
    requires distances { AreDistances (distances_in asked.now.distances.items) }
    requires compiled { IsCompiled (set_of set.now) compiled.now }
    requires fits { FitsRun (setup_of compiled.now.image) (words_of input.now) (items_of input.now.requests) }
    requires limit { compiled.now.limit ≤ 2 ^ 61 }
    ensures { IfOk result (λ a. reply_of a ≡ (
      Done,
      image_chart (asked_in asked.now).chart (compiled_of compiled.now).image (input_of input.now)
          (promised (set_of set.now) (asked_in asked.now).distances) (run_limit None (compiled_of compiled.now).limit),
    )) }
{
    let limit = run_limit(None, compiled.limit);
    let promises = promised(alloc, set, &asked.distances)?;
    let text = chart_under::<P>(
        alloc,
        &asked.chart,
        &compiled.image,
        input,
        &promises,
        limit,
    )?;
    Ok(Answer {
        status: Status::Done,
        text,
    })
}

/// The answer to a compiled set: a device that it hasn't got, requests that don't keep their distance, or the picture.
fn picture_answer<P: Policy>(
    alloc: Global,
    asked: &PictureAsked,
    distances: &[Distance],
    devices: &[Device],
    requests: &[Request],
    set: &TaskSet,
    input: &RunInput,
    compiled: &Compiled,
) -> Result<Answer, AllocError>
    requires policy { compiled.now.image.plant.policy ≡ P.kind_of }
    requires distances { AreDistances (distances_in asked.now.distances.items) }
    requires compiled { IsCompiled (set_of set.now) compiled.now }
    requires fits { FitsRun (setup_of compiled.now.image) (words_of input.now) (items_of input.now.requests) }
    requires limit { compiled.now.limit ≤ 2 ^ 61 }
    ensures { IfOk result (λ a. reply_of a ≡ reply_by (unknown_in (distances_in distances.now) devices.now) (stray_in (distances_in distances.now) devices.now requests.now)
        (image_chart (asked_in asked.now).chart (compiled_of compiled.now).image (input_of input.now) (promised (set_of set.now) (asked_in asked.now).distances)
        (run_limit None (compiled_of compiled.now).limit))) }
{
    match unknown_in(distances, devices) {
        Some(name) => unknown(alloc, name),
        None => match stray_in(distances, devices, requests) {
            Some(name) => stray(alloc, name),
            None => drawn::<P>(alloc, asked, set, input, compiled),
        },
    }
}

/// What draws the run of a set, as the words ask for it.
#[derive(Drop)]
pub(crate) struct Drawing<'a> {
    pub asked: &'a PictureAsked<'a>,
}

impl Teller for Drawing<'_> {
    ghost told = { λ drawing. chart_tells (asked_in drawing.asked.now) };

    ghost suits = { λ drawing _. AreDistances (distances_in drawing.asked.now.distances.items) };

    fn tell<P: Policy>(
        &self,
        alloc: Global,
        set: &TaskSet,
        input: &RunInput,
        compiled: &Compiled,
    ) -> Result<Answer, AllocError> {
        picture_answer::<P>(
            alloc,
            self.asked,
            &self.asked.distances,
            set.devices(),
            input.requests.items(),
            set,
            input,
            compiled,
        )
    }
}

/// The answer to the names of a set and a run file with what is asked of the picture: both are read, and the set is compiled and drawn. The
/// first of these stages that doesn't go through decides.
pub(crate) fn chart_answer<S: Store>(
    alloc: Global,
    asked: &PictureAsked,
    store: &mut S,
) -> Result<Answer, Halt>
    requires { AreDistances (distances_in asked.now.distances.items) }
    ensures answer { Comes reply_of (IsGiven (S.files store.old) (told_stages (chart_tells (asked_in asked.now)) (asked_in asked.now).chart.set (asked_in asked.now).chart.run)) result }
    ensures fault { IsErrOf result Halt.ReadFault → Rose (S.faults store.old) (S.faults store.new) }
    ensures later { S.faults store.old ≤ S.faults store.new }
    ensures same { S.files store.new ≡ S.files store.old }
{
    let drawing = Drawing { asked };
    tell_files(alloc, &drawing, asked.chart.set, asked.chart.run, store)
}
