// The answer to a set that breaks a rule.
ghost use Rattle.std.specs.Prelude.{◌≡◌, IfOk, IsErrOf, map};
ghost use Rattle.prem_tasks.specs.SetOf.{set_of, task_of};
ghost use Rattle.prem_tasks.specs.Told.{refusal_of};
ghost use Rattle.prem_answer.specs.Stages.{reply_of};
ghost use Rattle.prem_answer.specs.Refusal.Texts.{breaker, refusal_line, refused_reply};
ghost use Rattle.prem_answer.specs.Refusal.Uncompiled.{Refuses};

use crate::refusal::rule::rule_text;
use crate::{Answer, Halt, Status};
use prem_plant::TaskId;
use prem_tasks::{CompileFail, Refusal, TaskSet, TaskText};
use std::alloc::{AllocError, Global};

/// The name of the task that breaks a rule, and a star where the set as a whole does.
pub fn breaker(tasks: &[TaskText], task: Option<TaskId>) -> &str
    ensures { result.now ≡ breaker (map task_of tasks.now) task }
{
    match task {
        Some(n) => match tasks.get(n as usize) {
            Some(task) => task.name.text(),
            None => "",
        },
        None => "*",
    }
}

/// The line of a refusal.
fn refusal_line(alloc: Global, tasks: &[TaskText], refusal: &Refusal) -> Result<Vec<u8>, AllocError>
    ensures { IfOk result (λ line. line.items ≡ refusal_line (map task_of tasks.now) (refusal_of refusal.now)) }
{
    let name = breaker(tasks, refusal.task);
    let mut line = format!(in alloc; "refused {name} ")?.into_bytes();
    line.extend_from_slice(&rule_text(alloc, &refusal.rule)?)?;
    line.extend_from_slice(b"\n")?;
    Ok(line)
}

/// `refused TASK RULE`, with a star where the set as a whole breaks the rule.
pub fn refused(alloc: Global, tasks: &[TaskText], refusal: &Refusal) -> Result<Answer, AllocError>
    ensures { IfOk result (λ a. reply_of a ≡ refused_reply (map task_of tasks.now) (refusal_of refusal.now)) }
{
    Ok(Answer {
        status: Status::Refused,
        text: refusal_line(alloc, tasks, refusal)?,
    })
}

/// The answer to a set that isn't compiled: the first rule that it breaks is told.
pub fn uncompiled(alloc: Global, set: &TaskSet, fail: CompileFail) -> Result<Answer, Halt>
    ensures answer { Refuses (refused_reply (set_of set.now).tasks) fail result }
    ensures unread { IsErrOf result Halt.ReadFault → ⊥ }
{
    match fail {
        CompileFail::Refused(refusal) => Ok(refused(alloc, set.tasks(), &refusal)?),
        CompileFail::OutOfMemory => Err(Halt::OutOfMemory),
    }
}
