// The run of two images, and what is told of it.
ghost use Rattle.std.specs.Prelude.{◌≡◌, ◌≤◌, ◌^◌, [], IfOk};
ghost use Rattle.prem_list.specs.Sequence.{items_of};
ghost use Rattle.prem_image.specs.Text.{image_text};
ghost use Rattle.prem_cycle.specs.Inputs.{FitsRun, setup_of, words_of};
ghost use Rattle.prem_cycle.specs.FactsOf.{report_in, report_of};
ghost use Rattle.prem_exec.specs.Sources.Sources.{input_of};
ghost use Rattle.prem_pair_top.specs.Running.{pair_at, pair_stop_at, run_text};

use crate::report::{Reported, pair_report};
use prem_gate::RunInput;
use prem_image::Image;
use prem_lru::{Fifo, Lru, Policy};
use prem_pair::{Facts, Pair, PairStop};
use prem_plant::Replacement;
use std::alloc::{AllocError, Global};

/// The images of both cores, and what their runs are given.
#[derive(Clone, Copy)]
pub(crate) struct Given<'a> {
    pub one: &'a Image,
    pub two: &'a Image,
    pub input: &'a RunInput,
    pub other: &'a RunInput,
}

/// Both cores behind their run up to a cycle, and why it stopped.
fn run_pair<P: Policy, Q: Policy>(
    alloc: Global,
    given: &Given<'_>,
    limit: u64,
) -> Result<(Pair<P, Q>, PairStop), AllocError>
    requires policy { given.now.one.now.plant.policy ≡ P.kind_of }
    requires behind { given.now.two.now.plant.policy ≡ Q.kind_of }
    requires one { FitsRun (setup_of given.now.one.now) (words_of given.now.input.now) (items_of given.now.input.now.requests) }
    requires two { FitsRun (setup_of given.now.two.now) (words_of given.now.other.now) (items_of given.now.other.now.requests) }
    requires none { items_of given.now.other.now.requests ≡ [] }
    requires limit { limit ≤ 2 ^ 61 }
    ensures state { IfOk result (λ r. r.0.state ≡ pair_at (image_text given.now.one.now) (image_text given.now.two.now) (input_of given.now.input.now) (input_of given.now.other.now) limit) }
    ensures stop { IfOk result (λ r. r.1 ≡ pair_stop_at limit r.0.state) }
{
    let mut pair = Pair::<P, Q>::new(alloc, given.one, given.two, given.input, given.other)?;
    let stop = pair.run_to(limit);
    Ok((pair, stop))
}

/// What core 0 tells of the run so far.
fn first_facts<P: Policy, Q: Policy>(pair: &Pair<P, Q>) -> &Facts
    ensures { report_in result.now ≡ report_of pair.now.state.first }
{
    match pair.facts(0) {
        Some(facts) => facts,
        None => unreachable!(),
    }
}

/// What core 1 tells of the run so far.
fn second_facts<P: Policy, Q: Policy>(pair: &Pair<P, Q>) -> &Facts
    ensures { report_in result.now ≡ report_of pair.now.state.second }
{
    match pair.facts(1) {
        Some(facts) => facts,
        None => unreachable!(),
    }
}

/// What is told of the run up to a cycle.
fn told<P: Policy, Q: Policy>(
    alloc: Global,
    given: &Given<'_>,
    times: bool,
    limit: u64,
) -> Result<Vec<u8>, AllocError>
    requires policy { given.now.one.now.plant.policy ≡ P.kind_of }
    requires behind { given.now.two.now.plant.policy ≡ Q.kind_of }
    requires one { FitsRun (setup_of given.now.one.now) (words_of given.now.input.now) (items_of given.now.input.now.requests) }
    requires two { FitsRun (setup_of given.now.two.now) (words_of given.now.other.now) (items_of given.now.other.now.requests) }
    requires none { items_of given.now.other.now.requests ≡ [] }
    requires limit { limit ≤ 2 ^ 61 }
    ensures { IfOk result (λ text. text.items ≡ run_text (image_text given.now.one.now) (image_text given.now.two.now) (input_of given.now.input.now) (input_of given.now.other.now) times limit) }
{
    let (pair, stop) = run_pair::<P, Q>(alloc, given, limit)?;
    let reported = Reported {
        tasks: given.one.tasks.items(),
        others: given.two.tasks.items(),
        devices: given.one.devices.items(),
        times,
    };
    let first = first_facts(&pair);
    let second = second_facts(&pair);
    pair_report(alloc, &reported, pair.now(), first, second, stop)
}

/// The same, where the machine of each core is that of its image's policy.
pub(crate) fn run_text(
    alloc: Global,
    given: &Given<'_>,
    times: bool,
    limit: u64,
) -> Result<Vec<u8>, AllocError>
    requires one { FitsRun (setup_of given.now.one.now) (words_of given.now.input.now) (items_of given.now.input.now.requests) }
    requires two { FitsRun (setup_of given.now.two.now) (words_of given.now.other.now) (items_of given.now.other.now.requests) }
    requires none { items_of given.now.other.now.requests ≡ [] }
    requires limit { limit ≤ 2 ^ 61 }
    ensures { IfOk result (λ text. text.items ≡ run_text (image_text given.now.one.now) (image_text given.now.two.now) (input_of given.now.input.now) (input_of given.now.other.now) times limit) }
{
    match given.one.plant.policy {
        Replacement::Lru => match given.two.plant.policy {
            Replacement::Lru => told::<Lru, Lru>(alloc, given, times, limit),
            Replacement::Fifo => told::<Lru, Fifo>(alloc, given, times, limit),
        },
        Replacement::Fifo => match given.two.plant.policy {
            Replacement::Lru => told::<Fifo, Lru>(alloc, given, times, limit),
            Replacement::Fifo => told::<Fifo, Fifo>(alloc, given, times, limit),
        },
    }
}
