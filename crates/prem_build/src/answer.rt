// A set is read, compiled and told.
ghost use Rattle.std.specs.Prelude.{◌≡◌, ◌≤◌, IfOk, IsErrOf, Ok};
ghost use Rattle.prem_io.specs.Counts.{Rose};
ghost use Rattle.prem_tasks.specs.SetOf.{set_of};
ghost use Rattle.prem_compile.specs.CompiledOf.{compiled_of};
ghost use Rattle.prem_answer.specs.declared.status.Status.TheVariants.{Done};
ghost use Rattle.prem_answer.specs.Stages.{Comes, IsGiven, reply_of};
ghost use Rattle.prem_build.specs.Build.{compiled_reply, sheet_stages, sheet_text};

use crate::sheet::Sheet;
use crate::tables::{check_text, list_text};
use prem_answer::refusal::uncompiled;
use prem_answer::{Answer, Halt, Status};
use prem_compile::{Compiled, TaskSet, compile};
use prem_exec::sources::read_task_set;
use prem_imagefile::write_image;
use prem_io::Store;
use std::alloc::{AllocError, Global};

fn sheet_text(alloc: Global, sheet: Sheet, compiled: &Compiled) -> Result<Vec<u8>, AllocError>
    ensures { IfOk result (λ text. text.items ≡ sheet_text sheet (compiled_of compiled.now)) }
{
    match sheet {
        Sheet::Bounds => check_text(alloc, compiled),
        Sheet::Image => write_image(alloc, &compiled.image),
        Sheet::Listing => list_text(alloc, compiled),
    }
}

/// The answer to a set that breaks no rule.
fn done_answer(alloc: Global, sheet: Sheet, compiled: &Compiled) -> Result<Answer, AllocError>
    ensures { IfOk result (λ a. reply_of a ≡ (Done, sheet_text sheet (compiled_of compiled.now))) }
{
    Ok(Answer {
        status: Status::Done,
        text: sheet_text(alloc, sheet, compiled)?,
    })
}

/// The answer to a set: it is compiled and told, or the first rule that it breaks is.
fn compiled_answer(alloc: Global, sheet: Sheet, set: &TaskSet) -> Result<Answer, Halt>
    ensures answer { Comes reply_of (λ given. given ≡ Ok (compiled_reply sheet (set_of set.now))) result }
    ensures unread { IsErrOf result Halt.ReadFault → ⊥ }
{
    match compile(alloc, set) {
        Ok(compiled) => Ok(done_answer(alloc, sheet, &compiled)?),
        Err(fail) => uncompiled(alloc, set, fail),
    }
}

/// What is told of the set of a file: the set and its sources are read, and it is compiled. The first of these stages that doesn't
/// go through decides.
pub fn sheet_answer<S: Store>(
    alloc: Global,
    sheet: Sheet,
    name: &str,
    store: &mut S,
) -> Result<Answer, Halt>
    ensures answer { Comes reply_of (IsGiven (S.files store.old) (sheet_stages sheet name.now)) result }
    ensures fault { IsErrOf result Halt.ReadFault → Rose (S.faults store.old) (S.faults store.new) }
    ensures later { S.faults store.old ≤ S.faults store.new }
    ensures same { S.files store.new ≡ S.files store.old }
{
    let set = match read_task_set(alloc, store, name) {
        Ok(set) => set,
        Err(halt) => return Err(halt),
    };
    compiled_answer(alloc, sheet, &set)
}
