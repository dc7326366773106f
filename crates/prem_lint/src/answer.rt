// The answer to a set.
ghost use Rattle.std.specs.Prelude.{◌≡◌, ◌≤◌, ◌++◌, IfOk, IsErrOf, OnOk, Ok, false, map};
ghost use Rattle.std.specs.Option.{option_map};
ghost use Rattle.prem_io.specs.Counts.{Rose};
ghost use Rattle.prem_tasks.specs.SetOf.{set_of, task_of};
ghost use Rattle.prem_tasks.specs.Told.{refusal_of, told_of};
ghost use Rattle.prem_stages.specs.Coded.{AreFormed};
ghost use Rattle.prem_stages.specs.Stages.{checked_text};
ghost use Rattle.prem_compile.specs.Bounding.{AreBounds};
ghost use Rattle.prem_compile.specs.Judging.{AreJudged};
ghost use Rattle.prem_answer.specs.declared.status.Status.TheVariants.{Refused};
ghost use Rattle.prem_answer.specs.Stages.{Comes, IsGiven, reply_of};
ghost use Rattle.prem_lint.specs.Answers.{diagnosis, file_of, lint_reply, lint_stages, refusal_text, source_of};
ghost use Rattle.prem_lint.specs.Diagnostics.{diagnostic_text};
ghost use Rattle.prem_lint.specs.Needs.{is_length};
ghost use Rattle.prem_lint.specs.Programs.{HasProgram, program_at};

use crate::diagnostic::{Diagnostic, put_diagnostic};
use crate::form::read_stated;
use crate::needs::{put_needs, source_name};
use crate::places::spot_of;
use prem_answer::{Answer, Halt, Status, Telling};
use prem_compile::placed_stages::TaskBounds;
use prem_compile::{Judged, judge_programs};
use prem_exec::sources::read_sources;
use prem_io::Store;
use prem_plant::{Label, TaskId};
use prem_set::TaskEntry;
use prem_stages::checked_programs;
use prem_tasks::{Refusal, Stop, TaskSet, TaskText};
use prem_tree::Checked;
use std::alloc::{AllocError, Global};

/// The file in which a rule is told: the source of the task that breaks it, or the set file where the set as a whole does.
fn file_of<'a>(name: &'a str, sources: &'a [Label], task: Option<TaskId>) -> &'a str
    ensures { result.now ≡ file_of name.entry.now sources.entry.now task }
{
    match task {
        None => name,
        Some(n) => source_name(sources, n as usize),
    }
}

/// The text of the task that breaks a rule.
fn source_of(tasks: &[TaskText], task: Option<TaskId>) -> &[u8]
    ensures { result.now ≡ source_of (map task_of tasks.now) task }
{
    match task {
        None => &[],
        Some(n) => match tasks.get(n as usize) {
            Some(task) => task.text.items(),
            None => &[],
        },
    }
}

/// The first broken rule at its place, in the text of this program where it is told by one.
fn put_refusal(
    alloc: Global,
    text: &mut Vec<u8>,
    name: &str,
    sources: &[Label],
    set: &TaskSet,
    program: Option<&Checked>,
    refusal: &Refusal,
) -> Result<(), AllocError>
    requires { HasProgram (told_of refusal.now.rule) (source_of (set_of set.now).tasks refusal.now.task) (option_map (λ c. checked_text c.now) program) }
    ensures { OnOk result (text.new.items ≡ text.old.items ++ diagnostic_text (diagnosis name.now sources.now (set_of set.now) (refusal_of refusal.now))) }
{
    let source = source_of(set.tasks(), refusal.task);
    let spot = spot_of(alloc, &refusal.rule, source, program)?;
    let diagnostic = Diagnostic {
        file: file_of(name, sources, refusal.task),
        source,
        spot,
        rule: &refusal.rule,
    };
    put_diagnostic(alloc, text, &diagnostic)
}

/// The answer to a set that breaks a rule, if that isn't one on stated lengths.
#[tactic(auto, unfolding(crate::specs::Answers::refusal_text, crate::specs::Needs::needs_text))]
fn early_answer(
    alloc: Global,
    name: &str,
    sources: &[Label],
    set: &TaskSet,
    program: Option<&Checked>,
    refusal: &Refusal,
) -> Result<Answer, AllocError>
    requires program { HasProgram (told_of refusal.now.rule) (source_of (set_of set.now).tasks refusal.now.task) (option_map (λ c. checked_text c.now) program) }
    requires other { is_length (told_of refusal.now.rule) ≡ false }
    ensures { IfOk result (λ a. reply_of a ≡ (Refused, refusal_text name.now sources.now (set_of set.now) (refusal_of refusal.now))) }
{
    let mut text = Vec::new(alloc);
    put_refusal(alloc, &mut text, name, sources, set, program, refusal)?;
    Ok(Answer {
        status: Status::Refused,
        text,
    })
}

/// The program of the task that breaks a rule.
fn program_at(programs: &[Checked], task: Option<TaskId>) -> Option<&Checked>
    ensures { option_map (λ c. checked_text c.now) result ≡ program_at (map checked_text programs.now) task }
{
    match task {
        None => None,
        Some(n) => programs.get(n as usize),
    }
}

/// The answer to a set that breaks a rule behind those on programs, and none up to bounds.
#[tactic(auto, unfolding(crate::specs::Answers::refusal_text))]
fn late_answer(
    alloc: Global,
    name: &str,
    sources: &[Label],
    set: &TaskSet,
    programs: &[Checked],
    bounds: Vec<TaskBounds>,
    refusal: &Refusal,
) -> Result<Answer, AllocError>
    requires programs { AreFormed (set_of set.now) programs.now }
    requires bounds { AreBounds (set_of set.now) bounds.items }
    ensures { IfOk result (λ a. reply_of a ≡ (Refused, refusal_text name.now sources.now (set_of set.now) (refusal_of refusal.now))) }
{
    let mut text = Vec::new(alloc);
    let program = program_at(programs, refusal.task);
    put_refusal(alloc, &mut text, name, sources, set, program, refusal)?;
    put_needs(
        alloc,
        &mut text,
        sources,
        set,
        programs,
        bounds,
        &refusal.rule,
    )?;
    Ok(Answer {
        status: Status::Refused,
        text,
    })
}

/// The answer to a set that breaks no rule up to bounds.
fn judged_answer(
    alloc: Global,
    name: &str,
    sources: &[Label],
    set: &TaskSet,
    programs: &[Checked],
    judged: Judged,
) -> Result<Answer, AllocError>
    requires programs { AreFormed (set_of set.now) programs.now }
    requires judged { AreJudged (set_of set.now) judged }
    ensures { IfOk result (λ a. reply_of a ≡ lint_reply name.now sources.now (set_of set.now)) }
{
    let Judged { bounds, refusal } = judged;
    match refusal {
        None => Ok(Answer {
            status: Status::Done,
            text: Vec::new(alloc),
        }),
        Some(refusal) => {
            let refusal = Box::into_inner(refusal);
            late_answer(alloc, name, sources, set, programs, bounds, &refusal)
        }
    }
}

/// The answer to a set of these programs: nothing, or the first rule that it breaks.
fn judged_programs(
    alloc: Global,
    name: &str,
    sources: &[Label],
    set: &TaskSet,
    programs: &[Checked],
) -> Result<Answer, Halt>
    requires { AreFormed (set_of set.now) programs.now }
    ensures answer { Comes reply_of (λ given. given ≡ Ok (lint_reply name.now sources.now (set_of set.now))) result }
    ensures unread { IsErrOf result Halt.ReadFault → ⊥ }
{
    match judge_programs(alloc, set, programs) {
        Ok(judged) => Ok(judged_answer(alloc, name, sources, set, programs, judged)?),
        Err(Stop::Refused(refusal)) => {
            let refusal = Box::into_inner(refusal);
            let program = program_at(programs, refusal.task);
            Ok(early_answer(alloc, name, sources, set, program, &refusal)?)
        }
        Err(Stop::OutOfMemory) => Err(Halt::OutOfMemory),
    }
}

/// The answer to a set: nothing, or the first rule that it breaks.
fn judged(alloc: Global, name: &str, sources: &[Label], set: &TaskSet) -> Result<Answer, Halt>
    ensures answer { Comes reply_of (λ given. given ≡ Ok (lint_reply name.now sources.now (set_of set.now))) result }
    ensures unread { IsErrOf result Halt.ReadFault → ⊥ }
{
    match checked_programs(alloc, set) {
        Ok(programs) => judged_programs(alloc, name, sources, set, &programs),
        Err(Stop::Refused(refusal)) => {
            let refusal = Box::into_inner(refusal);
            Ok(early_answer(alloc, name, sources, set, None, &refusal)?)
        }
        Err(Stop::OutOfMemory) => Err(Halt::OutOfMemory),
    }
}

/// The names of the sources.
fn source_names(alloc: Global, tasks: &[TaskEntry]) -> Result<Vec<Label>, AllocError>
    ensures { IfOk result (λ names. names.items ≡ map (λ t. t.source) tasks.now) }
{
    let mut names = Vec::new(alloc);
    'tasks: for task in tasks {
        names.push(Label::new(alloc, task.source.text())?)?;
    }
    Ok(names)
}

/// What is said of the set of a file: nothing, or the first rule that it breaks, in the file and at the line where it does, with what to do.
///
/// The set and its sources are read as for `check`, and judged by the same rules. A status is `Done` exactly where `check`'s is. A file
/// that isn't there or is too long is told as `check` tells it.
pub fn lint_answer<S: Store>(alloc: Global, name: &str, store: &mut S) -> Result<Answer, Halt>
    ensures answer { Comes reply_of (IsGiven (S.files store.old) (lint_stages name.now)) result }
    ensures fault { IsErrOf result Halt.ReadFault → Rose (S.faults store.old) (S.faults store.new) }
    ensures later { S.faults store.old ≤ S.faults store.new }
    ensures same { S.files store.new ≡ S.files store.old }
{
    let file = match read_stated(alloc, store, name) {
        Ok(file) => file,
        Err(halt) => return Err(halt),
    };
    let sources = source_names(alloc, file.tasks.items())?;
    let set = match read_sources(alloc, Telling::Whole, store, file) {
        Ok(set) => set,
        Err(halt) => return Err(halt),
    };
    judged(alloc, name, &sources, &set)
}
