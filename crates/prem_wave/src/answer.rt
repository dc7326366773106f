// The dump of the run of a compiled set.
ghost use Rattle.prem_command.specs.Chart.{chart_asked};
ghost use Rattle.prem_wave.specs.Answer.{wave_tells};

use crate::tracing::wave;
use prem_answer::{Answer, Status};
use prem_command::chart::ChartWords;
use prem_compile::{Compiled, TaskSet};
use prem_gate::RunInput;
use prem_lru::Policy;
use prem_running::{Teller, run_limit};
use std::alloc::{AllocError, Global};

/// What dumps the run of a set, as the words ask for it.
#[derive(Drop)]
pub(crate) struct Dumping<'a> {
    pub asked: &'a ChartWords<'a>,
}

impl Teller for Dumping<'_> {
    ghost told = { λ dumping. wave_tells (chart_asked dumping.asked.now) };

    fn tell<P: Policy>(
        &self,
        alloc: Global,
        _set: &TaskSet,
        input: &RunInput,
        compiled: &Compiled,
    ) -> Result<Answer, AllocError> {
        let from = self.asked.from.unwrap_or(0);
        let limit = run_limit(self.asked.to, compiled.limit);
        Ok(Answer {
            status: Status::Done,
            text: wave::<P>(alloc, &compiled.image, input, from, limit)?,
        })
    }
}
