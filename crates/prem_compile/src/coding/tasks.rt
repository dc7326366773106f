// The tasks of a set with the plans and the code of their programs.
ghost use Rattle.std.specs.Prelude.{◌≡◌, IfOk, MatchResult, length, map};
ghost use Rattle.std.specs.List.{AllByRecursion};
ghost use Rattle.prem_prefetch.specs.Sizes.CodedOf.{coded_in, IsCodedTask};
ghost use Rattle.prem_tasks.specs.SetOf.{task_of, set_of};
ghost use Rattle.prem_tasks.specs.At.{broken_early};
ghost use Rattle.prem_tasks.specs.Stops.{Stops};
ghost use Rattle.prem_stages.specs.Coded.{AreFormed};
ghost use Rattle.prem_compile.specs.Coding.Tasks.{IsCodable, all_coded, coded_with};
ghost use Rattle.prem_compile.specs.Joined.{HasCode};

use prem_place::placing::CodedTask;
use prem_prefetch::parts::stack_size;
use prem_split::{facts_of, intervals_of};
use prem_stages::{CodedProgram, coded_programs};
use prem_tasks::{Stop, TaskSet, TaskText};
use prem_tree::Checked;
use std::alloc::{AllocError, Global};

/// A task with the plans, the stack and the code of its program.
fn coded_task<'a, 'p>(
    alloc: Global,
    task: &'a TaskText,
    coded: CodedProgram<'p>,
) -> Result<CodedTask<'a, 'p>, AllocError>
    requires { IsCodable coded }
    ensures same { IfOk result (λ t. coded_in t ≡ coded_with (task_of task.now) coded.entry) }
    ensures coded { IfOk result IsCodedTask }
{
    let bounded = coded.program;
    let code = coded.code;
    let program = bounded.resolved;
    let turns = bounded.turns;
    let facts = facts_of(alloc, &program)?;
    let plans = intervals_of(alloc, &program, &facts)?;
    let stack = stack_size(&program, &facts);
    Ok(CodedTask {
        name: &task.name,
        period: task.period,
        jobs: task.jobs,
        program,
        turns,
        plans,
        stack,
        code,
    })
}

/// Tasks with the plans, the stacks and the code of their programs, which stand in the same order.
fn code_tasks<'a, 'p>(
    alloc: Global,
    tasks: &'a [TaskText],
    programs: Vec<CodedProgram<'p>>,
) -> Result<Vec<CodedTask<'a, 'p>>, AllocError>
    requires tasks { length tasks.now ≡ length programs.items }
    requires each { AllByRecursion IsCodable programs.items }
    ensures same { IfOk result (λ all. map coded_in all.items ≡ all_coded (map task_of tasks.now) programs.entry.items) }
    ensures coded { IfOk result (λ all. AllByRecursion IsCodedTask all.items) }
{
    let mut all = Vec::new(alloc);
    let mut n = 0;
    for program in programs {
        let task = coded_task(alloc, &tasks[n], program)?;
        all.push(task)?;
        n += 1;
    }
    Ok(all)
}

/// The tasks of a set, of which these are the programs, with what is known of them up to their code, or the first rule on ranges or
/// code generation that the set breaks.
pub fn coded_tasks<'a, 'p>(
    alloc: Global,
    set: &'a TaskSet,
    programs: &'p [Checked],
) -> Result<Vec<CodedTask<'a, 'p>>, Stop>
    requires { AreFormed (set_of set.now) programs.now }
    ensures { MatchResult result (λ tasks. HasCode (set_of set.now) tasks.items) (λ stop. Stops stop (broken_early (set_of set.now))) }
{
    let coded = coded_programs(alloc, set, programs)?;
    let tasks = code_tasks(alloc, set.tasks(), coded)?;
    Ok(tasks)
}
