// A sample is drawn, compiled, run and told.
ghost use Rattle.std.specs.Prelude.{◌≡◌, IsErrOf, Ok};
ghost use Rattle.prem_answer.specs.Stages.{Comes, reply_of};
ghost use Rattle.prem_running.specs.Sample.Sample.{sample_reply, sample_tells};

use crate::sample::text::sample_text;
use crate::sample::trace::draw_sample;
use crate::teller::{Teller, tell_set};
use prem_answer::{Answer, Halt, Status};
use prem_compile::{Compiled, TaskSet};
use prem_exec::run_image;
use prem_gate::RunInput;
use prem_lru::Policy;
use std::alloc::{AllocError, Global};

/// What draws sets by a seed.
#[derive(Drop)]
struct Sampler {
    seed: u64,
}

impl Teller for Sampler {
    ghost told = { λ sampler. sample_tells sampler.seed };

    fn tell<P: Policy>(
        &self,
        alloc: Global,
        _set: &TaskSet,
        input: &RunInput,
        compiled: &Compiled,
    ) -> Result<Answer, AllocError> {
        let image = &compiled.image;
        let (machine, stop) = run_image::<P>(alloc, image, input, compiled.limit)?;
        let text = sample_text(
            alloc,
            self.seed,
            image.tasks.items(),
            image.devices.items(),
            machine.now(),
            machine.facts(),
            stop,
        )?;
        Ok(Answer {
            status: Status::Done,
            text,
        })
    }
}

/// The answer to `sample N`: the set and what comes to its run are drawn by the seed, the set is compiled, and its run is told; or the
/// first rule that it breaks is.
pub fn sample_answer(alloc: Global, seed: u64) -> Result<Answer, Halt>
    ensures answer { Comes reply_of (λ given. given ≡ Ok (sample_reply seed)) result }
    ensures unread { IsErrOf result Halt.ReadFault → ⊥ }
{
    let sample = draw_sample(alloc, seed)?;
    tell_set(alloc, &Sampler { seed }, &sample.set, &sample.input)
}
