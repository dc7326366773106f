// The answer to `run`: a set's run is told.
ghost use Rattle.std.specs.Prelude.{◌≡◌, ◌≤◌, ◌^◌, IsErrOf};
ghost use Rattle.prem_io.specs.Counts.{Rose};
ghost use Rattle.prem_command.specs.Words.{run_asked};
ghost use Rattle.prem_answer.specs.Stages.{Comes, IsGiven, reply_of};
ghost use Rattle.prem_running.specs.Running.{run_limit, run_stages, run_tells};

use crate::teller::{Teller, tell_files};
use prem_answer::{Answer, Halt, Status};
use prem_command::RunWords;
use prem_compile::{Compiled, TaskSet};
use prem_exec::run_answer as image_answer;
use prem_gate::RunInput;
use prem_io::Store;
use prem_lru::Policy;
use std::alloc::{AllocError, Global};

/// The last cycle of any machine.
const LAST_CYCLE: u64 = 1 << 61;

/// The cycle up to which a run goes: the one that the words tell, else the limit of the set.
pub fn run_limit(cycles: Option<u64>, limit: u64) -> u64
    ensures limit { result ≡ run_limit cycles limit }
    ensures within { result ≤ 2 ^ 61 }
{
    cycles.unwrap_or(limit).min(LAST_CYCLE)
}

impl Teller for RunWords<'_> {
    ghost told = { λ asked. run_tells (run_asked asked) };

    fn tell<P: Policy>(
        &self,
        alloc: Global,
        _set: &TaskSet,
        input: &RunInput,
        compiled: &Compiled,
    ) -> Result<Answer, AllocError> {
        let limit = run_limit(self.cycles, compiled.limit);
        let answer = image_answer(alloc, &compiled.image, input, self.intervals, limit)?;
        Ok(Answer {
            status: Status::Done,
            text: answer.text,
        })
    }
}

/// The answer to `run SET RUN`: the run of the set is told.
pub fn run_answer<S: Store>(alloc: Global, asked: &RunWords, store: &mut S) -> Result<Answer, Halt>
    ensures answer { Comes reply_of (IsGiven (S.files store.old) (run_stages (run_asked asked.now))) result }
    ensures fault { IsErrOf result Halt.ReadFault → Rose (S.faults store.old) (S.faults store.new) }
    ensures later { S.faults store.old ≤ S.faults store.new }
    ensures same { S.files store.new ≡ S.files store.old }
{
    tell_files(alloc, asked, asked.of, asked.run, store)
}
