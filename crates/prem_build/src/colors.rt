//! The answer to `color SET`: the parts of a set are moved by whole lines, so that its marked functions have room in the cache, and the bytes of the
//! image there are told.
ghost use Rattle.std.specs.Prelude.{◌≡◌, ◌≤◌, IfOk, IsErrOf, Ok, map, slice_index_or, []};
ghost use Rattle.prem_list.specs.Sequence.{items_of};
ghost use Rattle.prem_io.specs.Counts.{Rose};
ghost use Rattle.prem_syntax.specs.Name.{name_bytes};
ghost use Rattle.prem_color.specs.Rooms.{no_part};
ghost use Rattle.prem_tasks.specs.At.{AreLawfulFor};
ghost use Rattle.prem_tasks.specs.SetOf.{set_of, task_of};
ghost use Rattle.prem_compile.specs.CompiledOf.{compiled_of};
ghost use Rattle.prem_compile.specs.PartsOf.{HasParts};
ghost use Rattle.prem_imagefile.specs.Spelling.{image_bytes};
ghost use Rattle.prem_answer.specs.declared.status.Status.TheVariants.{Done, Refused};
ghost use Rattle.prem_answer.specs.Refusal.Texts.{refused_reply};
ghost use Rattle.prem_answer.specs.Stages.{Comes, IsGiven, reply_of};
ghost use Rattle.prem_build.specs.Colors.{color_reply, color_stages, found_places, kind_word, memory_refusal, moved_reply, placed_reply, stuck_line};

use prem_answer::refusal::{breaker, refused, uncompiled};
use prem_answer::{Answer, Halt, Status};
use prem_color::{ColorFail, color};
use prem_compile::{Compiled, Parts, Refusal, Rule, TaskSet, TaskText, compile_at, parts_of};
use prem_exec::sources::read_task_set;
use prem_imagefile::write_image;
use prem_io::Store;
use prem_plant::{Layout, PartKind, PartSize};
use prem_syntax::Name;
use std::alloc::{AllocError, Global};

/// What stands for a part where there is none.
const NO_PART: PartSize = PartSize {
    task: 0,
    kind: PartKind::Start,
    size: 0,
    align: 1,
};

/// The word for what a part is for.
fn kind_word(kind: PartKind) -> &'static str
    ensures { result.now ≡ kind_word kind }
{
    match kind {
        PartKind::Start => "start",
        PartKind::Code(_) => "code",
        PartKind::Stub(_) => "stub",
        PartKind::Global(_) => "global",
        PartKind::Stack => "stack",
        PartKind::Area(_) => "area",
    }
}

/// The part with a number.
fn part_at(sizes: &[PartSize], n: u32) -> PartSize
    ensures { result ≡ slice_index_or sizes.now n no_part }
{
    sizes.get(n as usize).copied().unwrap_or(NO_PART)
}

/// The name of the part with a number, and nothing where there is none.
fn name_of(names: &[Name], n: u32) -> &[u8]
    ensures { result.now ≡ slice_index_or (map name_bytes names.now) n [] }
{
    match names.get(n as usize) {
        Some(name) => name.bytes(),
        None => &[],
    }
}

/// The line of a part that no offset helps.
fn stuck_line(
    alloc: Global,
    tasks: &[TaskText],
    part: PartSize,
    name: &[u8],
) -> Result<Vec<u8>, AllocError>
    ensures { IfOk result (λ line. line.items ≡ stuck_line (map task_of tasks.now) part name.now) }
{
    let task = breaker(tasks, Some(part.task));
    let kind = kind_word(part.kind);
    let mut line = format!(in alloc; "refused {task} color {kind} ")?.into_bytes();
    line.extend_from_slice(name)?;
    line.extend_from_slice(b"\n")?;
    Ok(line)
}

/// The answer where no offset helps the part with a number.
fn stuck(alloc: Global, tasks: &[TaskText], parts: &Parts, n: u32) -> Result<Answer, AllocError>
    ensures { IfOk result (λ a. reply_of a ≡ (Refused, stuck_line (map task_of tasks.now) (slice_index_or (items_of parts.now.sizes) n no_part) (slice_index_or (map name_bytes (items_of parts.now.names)) n []))) }
{
    let part = part_at(parts.sizes.items(), n);
    let name = name_of(parts.names.items(), n);
    Ok(Answer {
        status: Status::Refused,
        text: stuck_line(alloc, tasks, part, name)?,
    })
}

/// The answer where the last part would end past memory.
fn full(alloc: Global, tasks: &[TaskText], need: u64, have: u32) -> Result<Answer, AllocError>
    ensures { IfOk result (λ a. reply_of a ≡ refused_reply (map task_of tasks.now) (memory_refusal need have)) }
{
    let refusal = Refusal {
        task: None,
        rule: Rule::MemoryFull { need, have },
    };
    refused(alloc, tasks, &refusal)
}

/// The answer to a set that breaks no rule.
fn colored_answer(alloc: Global, compiled: &Compiled) -> Result<Answer, AllocError>
    ensures { IfOk result (λ a. reply_of a ≡ (Done, image_bytes (compiled_of compiled.now).image)) }
{
    Ok(Answer {
        status: Status::Done,
        text: write_image(alloc, &compiled.image)?,
    })
}

/// The answer to a set whose parts have these places.
fn placed_answer(alloc: Global, set: &TaskSet, layout: &Layout) -> Result<Answer, Halt>
    requires { AreLawfulFor (set_of set.now) layout.now }
    ensures answer { Comes reply_of (λ given. given ≡ Ok (placed_reply (set_of set.now) layout.now)) result }
    ensures unread { IsErrOf result Halt.ReadFault → ⊥ }
{
    match compile_at(alloc, set, layout) {
        Ok(compiled) => Ok(colored_answer(alloc, &compiled)?),
        Err(fail) => uncompiled(alloc, set, fail),
    }
}

/// The answer to a set with these parts: they are moved, and the set is compiled at their places.
fn moved_answer(alloc: Global, set: &TaskSet, parts: &Parts) -> Result<Answer, Halt>
    requires { HasParts (set_of set.now) parts.now }
    ensures answer { Comes reply_of (λ given. given ≡ Ok (moved_reply (set_of set.now) (found_places (set_of set.now)))) result }
    ensures unread { IsErrOf result Halt.ReadFault → ⊥ }
{
    let tasks = set.tasks();
    match color(alloc, parts.sizes.items(), parts.wants.items(), set.plant()) {
        Ok(layout) => placed_answer(alloc, set, &layout),
        Err(ColorFail::NoOffset { part }) => Ok(stuck(alloc, tasks, parts, part)?),
        Err(ColorFail::MemoryFull { need, have }) => Ok(full(alloc, tasks, need, have)?),
        Err(ColorFail::OutOfMemory) => Err(Halt::OutOfMemory),
    }
}

/// The answer to a set: the rules up to code generation, then the places of its parts, then the other rules.
fn set_answer(alloc: Global, set: &TaskSet) -> Result<Answer, Halt>
    ensures answer { Comes reply_of (λ given. given ≡ Ok (color_reply (set_of set.now))) result }
    ensures unread { IsErrOf result Halt.ReadFault → ⊥ }
{
    match parts_of(alloc, set) {
        Ok(parts) => moved_answer(alloc, set, &parts),
        Err(fail) => uncompiled(alloc, set, fail),
    }
}

/// The answer to `color SET`: the set and its sources are read, its parts get places so that its marked functions have room in the cache, and the
/// bytes of its image there are told. The first of these stages that doesn't go through decides.
pub fn color_answer<S: Store>(alloc: Global, name: &str, store: &mut S) -> Result<Answer, Halt>
    ensures answer { Comes reply_of (IsGiven (S.files store.old) (color_stages name.now)) result }
    ensures fault { IsErrOf result Halt.ReadFault → Rose (S.faults store.old) (S.faults store.new) }
    ensures later { S.faults store.old ≤ S.faults store.new }
    ensures same { S.files store.new ≡ S.files store.old }
{
    let set = match read_task_set(alloc, store, name) {
        Ok(set) => set,
        Err(halt) => return Err(halt),
    };
    set_answer(alloc, &set)
}
