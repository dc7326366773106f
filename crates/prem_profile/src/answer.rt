// The profile of the run of a set.
ghost use Rattle.std.specs.Prelude.{◌≡◌, ◌≤◌, ◌/◌, ◌^◌, IfOk, IsErrOf, Ok, length, map};
ghost use Rattle.prem_list.specs.Sequence.{items_of};
ghost use Rattle.prem_io.specs.Counts.{Rose};
ghost use Rattle.prem_image.specs.Text.{image_text};
ghost use Rattle.prem_cycle.specs.Inputs.{FitsRun, setup_of, words_of};
ghost use Rattle.prem_tasks.specs.SetOf.{set_of};
ghost use Rattle.prem_compile.specs.CompiledOf.{IsCompiled, compiled_of};
ghost use Rattle.prem_answer.specs.Stages.{Comes, IsGiven, reply_of};
ghost use Rattle.prem_exec.specs.Sources.Sources.{input_of};
ghost use Rattle.prem_profile.specs.Strips.{first_row, strip_of};
ghost use Rattle.prem_profile.specs.Sets.{set_lines, strips_of};
ghost use Rattle.prem_profile.specs.Words.{profile_asked, run_asked};
ghost use Rattle.prem_profile.specs.Bound.Billed.{IsBilled};
ghost use Rattle.prem_profile.specs.Answer.{bound_reply, bound_stages, bound_text, image_profile, profile_stages, profile_tells, run_stages, sources_of};

use crate::account::RowTable;
use crate::bound::set::{BilledSet, bill_set};
use crate::bound::text::bill_text;
use crate::callgrind::{Source, Told, profile_text};
use crate::calls::functions_of;
use crate::strip::{Rows, Strip, rows_from};
use crate::strips::{set_lines, strips_of};
use crate::tracing::profile;
use crate::words::{ProfileWords, RunWords};
use prem_answer::refusal::uncompiled;
use prem_answer::{Answer, Halt, Status, Telling};
use prem_compile::{Compiled, TaskSet};
use prem_exec::sources::{read_run_file, read_set_file, read_sources};
use prem_gate::RunInput;
use prem_image::Image;
use prem_io::Store;
use prem_lru::Policy;
use prem_plant::Label;
use prem_running::{Teller, run_limit, tell_set};
use prem_set::TaskEntry;
use prem_tasks::Stop;
use std::alloc::{AllocError, Global};

/// The first row of words of code, of so many tasks.
fn first_row(sources: &[Source]) -> usize
    ensures { result ≡ first_row (length sources.now) }
{
    2 + sources.len()
}

/// How many words an image has.
fn word_count(image: &Image) -> usize
    ensures { result ≡ length (items_of image.now.content) / 4 }
{
    image.content.items().len() / 4
}

/// The profile of the run of an image of this policy up to a cycle.
fn image_profile<P: Policy>(
    alloc: Global,
    image: &Image,
    input: &RunInput,
    sources: &[Source],
    strips: &[Strip],
    limit: u64,
) -> Result<Vec<u8>, AllocError>
    requires policy { image.now.plant.policy ≡ P.kind_of }
    requires fits { FitsRun (setup_of image.now) (words_of input.now) (items_of input.now.requests) }
    requires limit { limit ≤ 2 ^ 61 }
    ensures { IfOk result (λ text. text.items ≡ image_profile sources.now (map strip_of strips.now) (image_text image.now) (input_of input.now) limit) }
{
    let size = word_count(image);
    let Rows { words, costs } = rows_from(alloc, first_row(sources), size, strips)?;
    let tasks = sources.len();
    let table = RowTable { tasks, words };
    let functions = functions_of(alloc, first_row(sources), strips)?;
    let traced = profile::<P>(alloc, image, input, &table, &functions, costs, limit)?;
    let told = Told {
        sources,
        strips,
        calls: &traced.calls,
    };
    let text = profile_text(alloc, told, traced.account.total, &traced.account.costs)?;
    Ok(text)
}

/// What tells the profile of the run of a set, as the words ask for it.
#[derive(Drop)]
pub(crate) struct Profiling<'a> {
    pub asked: &'a RunWords<'a>,
    pub sources: &'a [Source],
}

/// The strips of a set that breaks no rule.
fn set_strips(alloc: Global, set: &TaskSet, compiled: &Compiled) -> Result<Vec<Strip>, AllocError>
    requires { IsCompiled (set_of set.now) compiled.now }
    ensures { IfOk result (λ strips. map strip_of strips.items ≡ strips_of (set_lines (set_of set.now)) (compiled_of compiled.now)) }
{
    match set_lines(alloc, set) {
        Ok(lines) => strips_of(alloc, &lines, compiled),
        Err(Stop::OutOfMemory) => Err(AllocError),
        Err(Stop::Refused(_)) => unreachable!(),
    }
}

impl Teller for Profiling<'_> {
    ghost told = { λ profiling. profile_tells profiling.sources.now (run_asked profiling.asked.now) };

    fn tell<P: Policy>(
        &self,
        alloc: Global,
        set: &TaskSet,
        input: &RunInput,
        compiled: &Compiled,
    ) -> Result<Answer, AllocError> {
        let limit = run_limit(self.asked.cycles, compiled.limit);
        let strips = set_strips(alloc, set, compiled)?;
        let image = &compiled.image;
        let text = image_profile::<P>(alloc, image, input, self.sources, &strips, limit)?;
        Ok(Answer {
            status: Status::Done,
            text,
        })
    }
}

/// The tasks of a set's file, as a profile tells them.
fn sources_of(alloc: Global, tasks: &[TaskEntry]) -> Result<Vec<Source>, AllocError>
    ensures { IfOk result (λ sources. sources.items ≡ sources_of tasks.now) }
{
    let mut sources = Vec::new(alloc);
    'tasks: for task in tasks {
        let name = Label::new(alloc, task.name.text())?;
        let file = Label::new(alloc, task.source.text())?;
        sources.push(Source { name, file })?;
    }
    Ok(sources)
}

/// The profile of a run: the set's file and its sources are read, then the run file; the set is compiled, run and told. The first of these
/// stages that doesn't go through decides.
fn run_answer<S: Store>(alloc: Global, asked: &RunWords, store: &mut S) -> Result<Answer, Halt>
    ensures answer { Comes reply_of (IsGiven (S.files store.old) (run_stages (run_asked asked.now))) result }
    ensures fault { IsErrOf result Halt.ReadFault → Rose (S.faults store.old) (S.faults store.new) }
    ensures later { S.faults store.old ≤ S.faults store.new }
    ensures same { S.files store.new ≡ S.files store.old }
{
    let file = match read_set_file(alloc, Telling::Whole, store, asked.set) {
        Ok(file) => file,
        Err(halt) => return Err(halt),
    };
    let sources = sources_of(alloc, file.tasks.items())?;
    let set = match read_sources(alloc, Telling::Whole, store, file) {
        Ok(set) => set,
        Err(halt) => return Err(halt),
    };
    let input = match read_run_file(alloc, store, asked.run, &set) {
        Ok(input) => input,
        Err(halt) => return Err(halt),
    };
    let profiling = Profiling {
        asked,
        sources: &sources,
    };
    tell_set(alloc, &profiling, &set, &input)
}

/// The profile of the bound of a set that breaks no rule.
fn bound_text(
    alloc: Global,
    set: &TaskSet,
    sources: &[Source],
    billed: &BilledSet,
) -> Result<Vec<u8>, AllocError>
    requires { IsBilled (set_of set.now) billed.now }
    ensures { IfOk result (λ text. text.items ≡ bound_text sources.now (set_of set.now)) }
{
    let strips = set_strips(alloc, set, &billed.compiled)?;
    let size = word_count(&billed.compiled.image);
    bill_text(alloc, sources, &strips, size, &billed.bill)
}

/// The answer to a set: it is compiled and its bound is told by lines, or the first rule that it breaks is.
fn set_bound(alloc: Global, set: &TaskSet, sources: &[Source]) -> Result<Answer, Halt>
    ensures answer { Comes reply_of (λ given. given ≡ Ok (bound_reply sources.now (set_of set.now))) result }
    ensures unread { IsErrOf result Halt.ReadFault → ⊥ }
{
    match bill_set(alloc, set) {
        Ok(billed) => Ok(Answer {
            status: Status::Done,
            text: bound_text(alloc, set, sources, &billed)?,
        }),
        Err(fail) => uncompiled(alloc, set, fail),
    }
}

/// The profile of a bound: the set's file and its sources are read; the set is compiled and told. The first of these stages that doesn't
/// go through decides.
fn bound_answer<S: Store>(alloc: Global, set: &str, store: &mut S) -> Result<Answer, Halt>
    ensures answer { Comes reply_of (IsGiven (S.files store.old) (bound_stages set.now)) result }
    ensures fault { IsErrOf result Halt.ReadFault → Rose (S.faults store.old) (S.faults store.new) }
    ensures later { S.faults store.old ≤ S.faults store.new }
    ensures same { S.files store.new ≡ S.files store.old }
{
    let file = match read_set_file(alloc, Telling::Whole, store, set) {
        Ok(file) => file,
        Err(halt) => return Err(halt),
    };
    let sources = sources_of(alloc, file.tasks.items())?;
    let set = match read_sources(alloc, Telling::Whole, store, file) {
        Ok(set) => set,
        Err(halt) => return Err(halt),
    };
    set_bound(alloc, &set, &sources)
}

/// The answer to the words, by what is profiled.
pub(crate) fn profile_answer<S: Store>(
    alloc: Global,
    asked: &ProfileWords,
    store: &mut S,
) -> Result<Answer, Halt>
    ensures answer { Comes reply_of (IsGiven (S.files store.old) (profile_stages (profile_asked asked.now))) result }
    ensures fault { IsErrOf result Halt.ReadFault → Rose (S.faults store.old) (S.faults store.new) }
    ensures later { S.faults store.old ≤ S.faults store.new }
    ensures same { S.files store.new ≡ S.files store.old }
{
    match asked {
        ProfileWords::Run(words) => run_answer(alloc, words, store),
        ProfileWords::Bound(set) => bound_answer(alloc, set, store),
    }
}
