// The sets of both cores and their run files are read, compiled and run.
ghost use Rattle.std.specs.Prelude.{◌≡◌, ◌≤◌, [], IfOk, IsErrOf, Ok};
ghost use Rattle.prem_list.specs.Sequence.{items_of};
ghost use Rattle.prem_io.specs.Counts.{Rose};
ghost use Rattle.prem_cycle.specs.Inputs.{FitsRun, setup_of, words_of};
ghost use Rattle.prem_tasks.specs.SetOf.{set_of};
ghost use Rattle.prem_compile.specs.CompiledOf.{compiled_of};
ghost use Rattle.prem_set.specs.Run.Lawful.{IsLawfulRun};
ghost use Rattle.prem_answer.specs.Stages.{Comes, IsGiven, reply_of};
ghost use Rattle.prem_answer.specs.Refusal.Uncompiled.{Refuses};
ghost use Rattle.prem_exec.specs.Sources.Sources.{input_of, names_of};
ghost use Rattle.prem_pair_top.specs.Words.{pair_asked};
ghost use Rattle.prem_pair_top.specs.Running.{CountsDue};
ghost use Rattle.prem_pair_top.specs.Stages.{compiled_text, pair_stages, refused_text, sets_reply};

use crate::limit::cycles_in;
use crate::read::read_other_set;
use crate::run::{Given, run_text};
use crate::words::PairWords;
use prem_answer::refusal::breaker;
use prem_answer::{Answer, Halt, Status, Telling};
use prem_compile::{CompileFail, Compiled, TaskSet, compile};
use prem_exec::sources::{read_run_file_by, read_task_set_by};
use prem_gate::RunInput;
use prem_io::Store;
use std::alloc::{AllocError, Global};

/// The sets of both cores, and what their runs are given.
#[derive(Clone, Copy)]
struct Sets<'a> {
    one: &'a TaskSet,
    two: &'a TaskSet,
    input: &'a RunInput,
    other: &'a RunInput,
}

/// `refused CORE TASK`, with a star where the set as a whole breaks the rule.
fn uncompiled(alloc: Global, core: u8, set: &TaskSet, fail: CompileFail) -> Result<Answer, Halt>
    ensures answer { Refuses (λ rule. (Status.Refused, refused_text core (set_of set.now).tasks rule)) fail result }
    ensures unread { IsErrOf result Halt.ReadFault → ⊥ }
{
    match fail {
        CompileFail::Refused(refusal) => {
            let name = breaker(set.tasks(), refusal.task);
            Ok(Answer {
                status: Status::Refused,
                text: format!(in alloc; "refused {core} {name}\n")?.into_bytes(),
            })
        }
        CompileFail::OutOfMemory => Err(Halt::OutOfMemory),
    }
}

/// The answer to two sets that break no rule: their run is told.
fn told_answer(
    alloc: Global,
    asked: &PairWords<'_>,
    sets: &Sets<'_>,
    one: &Compiled,
    two: &Compiled,
) -> Result<Answer, AllocError>
    requires one { FitsRun (setup_of one.now.image) (words_of sets.now.input.now) (items_of sets.now.input.now.requests) }
    requires two { FitsRun (setup_of two.now.image) (words_of sets.now.other.now) (items_of sets.now.other.now.requests) }
    requires none { items_of sets.now.other.now.requests ≡ [] }
    requires due { CountsDue (compiled_of one.now) }
    requires other_due { CountsDue (compiled_of two.now) }
    ensures { IfOk result (λ a. reply_of a ≡ (Status.Done, compiled_text (pair_asked asked.now) (input_of sets.now.input.now) (input_of sets.now.other.now) (compiled_of one.now) (compiled_of two.now))) }
{
    let limit = cycles_in(asked.options.cycles, one, two, sets.input.requests.items());
    let given = Given {
        one: &one.image,
        two: &two.image,
        input: sets.input,
        other: sets.other,
    };
    let text = run_text(alloc, &given, asked.options.intervals, limit)?;
    Ok(Answer {
        status: Status::Done,
        text,
    })
}

/// The answer to both sets with their run files: they are compiled and their run is told, or the set that breaks a rule is, the first
/// set first.
fn sets_answer(alloc: Global, asked: &PairWords<'_>, sets: &Sets<'_>) -> Result<Answer, Halt>
    requires one { IsLawfulRun (names_of (set_of sets.now.one.now)) sets.now.input.now }
    requires two { IsLawfulRun (names_of (set_of sets.now.two.now)) sets.now.other.now }
    requires none { (set_of sets.now.two.now).devices ≡ [] }
    ensures answer { Comes reply_of (λ given. given ≡ Ok (sets_reply (pair_asked asked.now) (set_of sets.now.one.now) (set_of sets.now.two.now) (input_of sets.now.input.now) (input_of sets.now.other.now))) result }
    ensures unread { IsErrOf result Halt.ReadFault → ⊥ }
{
    let one = match compile(alloc, sets.one) {
        Ok(one) => one,
        Err(fail) => return uncompiled(alloc, 0, sets.one, fail),
    };
    match compile(alloc, sets.two) {
        Ok(two) => Ok(told_answer(alloc, asked, sets, &one, &two)?),
        Err(fail) => uncompiled(alloc, 1, sets.two, fail),
    }
}

/// The answer to what the words ask for: the first set and its sources are read, then the second, then both run files, and both sets
/// are compiled and run. The first of these stages that doesn't go through decides.
pub(crate) fn pair_answer<S: Store>(
    alloc: Global,
    asked: &PairWords<'_>,
    store: &mut S,
) -> Result<Answer, Halt>
    ensures answer { Comes reply_of (IsGiven (S.files store.old) (pair_stages (pair_asked asked.now))) result }
    ensures fault { IsErrOf result Halt.ReadFault → Rose (S.faults store.old) (S.faults store.new) }
    ensures later { S.faults store.old ≤ S.faults store.new }
    ensures same { S.files store.new ≡ S.files store.old }
{
    let one = match read_task_set_by(alloc, Telling::Brief, store, asked.set) {
        Ok(set) => set,
        Err(halt) => return Err(halt),
    };
    let two = match read_other_set(alloc, store, asked.other_set) {
        Ok(set) => set,
        Err(halt) => return Err(halt),
    };
    let input = match read_run_file_by(alloc, Telling::Brief, store, asked.run, &one) {
        Ok(input) => input,
        Err(halt) => return Err(halt),
    };
    let other = match read_run_file_by(alloc, Telling::Brief, store, asked.other_run, &two) {
        Ok(input) => input,
        Err(halt) => return Err(halt),
    };
    let sets = Sets {
        one: &one,
        two: &two,
        input: &input,
        other: &other,
    };
    sets_answer(alloc, asked, &sets)
}
