// A set is read, compiled and tested.
ghost use Rattle.std.specs.Prelude.{◌≡◌, ◌≤◌, IfOk, IsErrOf, Ok, map};
ghost use Rattle.prem_io.specs.Counts.{Rose};
ghost use Rattle.prem_tasks.specs.SetOf.{set_of, task_of};
ghost use Rattle.prem_tasks.specs.Told.{refusal_of};
ghost use Rattle.prem_answer.specs.Stages.{Comes, IsGiven, reply_of};
ghost use Rattle.prem_resp.specs.Stages.{fit_reply, fit_stages, refused_text};
ghost use Rattle.prem_resp.specs.Told.{HasLoads, text_by};

use crate::lines::fit_text;
use crate::loads::{busy_periods, loads_of};
use prem_answer::refusal::breaker;
use prem_answer::{Answer, Halt, Status, Telling};
use prem_compile::{CompileFail, Compiled, TaskSet, compile};
use prem_exec::sources::read_task_set_by;
use prem_io::Store;
use prem_tasks::{Refusal, TaskText};
use std::alloc::{AllocError, Global};

/// `refused TASK`, with a star where the set as a whole breaks the rule.
fn refused(alloc: Global, tasks: &[TaskText], refusal: &Refusal) -> Result<Answer, AllocError>
    ensures { IfOk result (λ a. reply_of a ≡ (Status.Refused, refused_text (map task_of tasks.now) (refusal_of refusal.now))) }
{
    let name = breaker(tasks, refusal.task);
    Ok(Answer {
        status: Status::Refused,
        text: format!(in alloc; "refused {name}\n")?.into_bytes(),
    })
}

/// The answer to a set that breaks no rule.
fn tested(alloc: Global, compiled: &Compiled) -> Result<Answer, AllocError>
    requires { HasLoads compiled.now }
    ensures { IfOk result (λ a. reply_of a ≡ (Status.Done, text_by compiled.now)) }
{
    let tasks = compiled.image.tasks.items();
    let jobs = compiled.jobs.items();
    let longest = compiled.longest.items();
    let loads = loads_of(alloc, tasks, jobs, longest)?;
    let found = busy_periods(alloc, &loads)?;
    Ok(Answer {
        status: Status::Done,
        text: fit_text(alloc, tasks, &loads, &found)?,
    })
}

/// The answer to a set: it is compiled and tested, or the task that breaks a rule is told.
#[tactic(auto, using(crate::proofs::Stages::refused_is))]
fn set_answer(alloc: Global, set: &TaskSet) -> Result<Answer, Halt>
    ensures answer { Comes reply_of (λ given. given ≡ Ok (fit_reply (set_of set.now))) result }
    ensures unread { IsErrOf result Halt.ReadFault → ⊥ }
{
    match compile(alloc, set) {
        Ok(compiled) => Ok(tested(alloc, &compiled)?),
        Err(CompileFail::Refused(refusal)) => Ok(refused(alloc, set.tasks(), &refusal)?),
        Err(CompileFail::OutOfMemory) => Err(Halt::OutOfMemory),
    }
}

/// The answer to the name of a set's file: the set and its sources are read, and it is compiled and tested. The first of these
/// stages that doesn't go through decides.
pub(crate) fn fit_answer<S: Store>(alloc: Global, name: &str, store: &mut S) -> Result<Answer, Halt>
    ensures answer { Comes reply_of (IsGiven (S.files store.old) (fit_stages name.now)) result }
    ensures fault { IsErrOf result Halt.ReadFault → Rose (S.faults store.old) (S.faults store.new) }
    ensures later { S.faults store.old ≤ S.faults store.new }
    ensures same { S.files store.new ≡ S.files store.old }
{
    let set = match read_task_set_by(alloc, Telling::Brief, store, name) {
        Ok(set) => set,
        Err(halt) => return Err(halt),
    };
    set_answer(alloc, &set)
}
