// The answer to `exec`.
ghost use Rattle.std.specs.Prelude.{◌≡◌, ◌≤◌, ◌^◌, IsErrOf};
ghost use Rattle.prem_io.specs.Counts.{Rose};
ghost use Rattle.prem_command.specs.Words.{run_asked};
ghost use Rattle.prem_answer.specs.Stages.{Comes, IsGiven, reply_of};
ghost use Rattle.prem_exec.specs.Exec.{exec_limit, exec_stages};

use crate::files::{image_file, run_file};
use crate::run::run_answer;
use prem_answer::{Answer, Halt};
use prem_command::RunWords;
use prem_io::Store;
use std::alloc::Global;

/// The cycle up to which a run goes, where the words tell none.
const DEFAULT_CYCLES: u64 = 10_000_000;

/// The last cycle up to which a run may be asked to go.
const LAST_CYCLE: u64 = 1 << 50;

/// The cycle up to which a run goes.
fn exec_limit(cycles: Option<u64>) -> u64
    ensures limit { result ≡ exec_limit cycles }
    ensures last { result ≤ 2 ^ 50 }
{
    cycles.unwrap_or(DEFAULT_CYCLES).min(LAST_CYCLE)
}

/// The answer to `exec IMAGE RUN`: the image file and the run file are read, and the run is told. The first of these stages that
/// doesn't go through decides.
pub fn exec_answer<S: Store>(alloc: Global, asked: &RunWords, store: &mut S) -> Result<Answer, Halt>
    ensures answer { Comes reply_of (IsGiven (S.files store.old) (exec_stages (run_asked asked.now))) result }
    ensures fault { IsErrOf result Halt.ReadFault → Rose (S.faults store.old) (S.faults store.new) }
    ensures later { S.faults store.old ≤ S.faults store.new }
    ensures same { S.files store.new ≡ S.files store.old }
{
    let image = match image_file(alloc, store, asked.of) {
        Ok(image) => image,
        Err(halt) => return Err(halt),
    };
    let input = match run_file(alloc, store, asked.run, &image) {
        Ok(input) => input,
        Err(halt) => return Err(halt),
    };
    let limit = exec_limit(asked.cycles);
    Ok(run_answer(alloc, &image, &input, asked.intervals, limit)?)
}
