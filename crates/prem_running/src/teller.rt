// A set is read with its run file and compiled, and something is told of it.
ghost use Rattle.std.specs.Prelude.{◌≡◌, ◌≤◌, ◌^◌, ⊤, IfOk, IsErrOf, Ok};
ghost use Rattle.prem_list.specs.Sequence.{items_of};
ghost use Rattle.prem_io.specs.Counts.{Rose};
ghost use Rattle.prem_cycle.specs.Inputs.{FitsRun, setup_of, words_of};
ghost use Rattle.prem_tasks.specs.Broken.{TaskSet as SetText};
ghost use Rattle.prem_tasks.specs.SetOf.{set_of};
ghost use Rattle.prem_compile.specs.CompiledOf.{IsCompiled, compiled_of};
ghost use Rattle.prem_set.specs.Run.Lawful.{IsLawfulRun};
ghost use Rattle.prem_answer.specs.Stages.{Comes, IsGiven, reply_of};
ghost use Rattle.prem_exec.specs.Sources.Sources.{input_of, names_of};
ghost use Rattle.prem_running.specs.Tellings.{Tells, set_reply, told_stages};

use prem_answer::refusal::uncompiled;
use prem_answer::{Answer, Halt};
use prem_compile::{Compiled, TaskSet, compile};
use prem_exec::sources::{read_run_file, read_task_set};
use prem_gate::RunInput;
use prem_io::Store;
use prem_lru::{Fifo, Lru, Policy};
use prem_plant::Replacement;
use std::alloc::{AllocError, Global};

/// What tells something of a set that breaks no rule, and of what its run is given.
pub trait Teller {
    /// What it tells.
    ghost told: { Self → Tells };

    /// Of which sets it can tell that.
    ghost suits: { Self → SetText → Type 0 } = { λ _ _. ⊤ };

    /// The answer to a set that breaks no rule. Its machine is that of this policy.
    fn tell<P: Policy>(
        &self,
        alloc: Global,
        set: &TaskSet,
        input: &RunInput,
        compiled: &Compiled,
    ) -> Result<Answer, AllocError>
        requires policy { compiled.now.image.plant.policy ≡ P.kind_of }
        requires compiled { IsCompiled (set_of set.now) compiled.now }
        requires fits { FitsRun (setup_of compiled.now.image) (words_of input.now) (items_of input.now.requests) }
        requires limit { compiled.now.limit ≤ 2 ^ 61 }
        requires suits { suits self.now (set_of set.now) }
        ensures { IfOk result (λ a. reply_of a ≡ told self.now (set_of set.now) (input_of input.now) (compiled_of compiled.now)) };
}

/// The answer to a set that breaks no rule. The machine is that of its image's policy.
fn tell_compiled<T: Teller>(
    alloc: Global,
    teller: &T,
    set: &TaskSet,
    input: &RunInput,
    compiled: &Compiled,
) -> Result<Answer, AllocError>
    requires compiled { IsCompiled (set_of set.now) compiled.now }
    requires fits { FitsRun (setup_of compiled.now.image) (words_of input.now) (items_of input.now.requests) }
    requires limit { compiled.now.limit ≤ 2 ^ 61 }
    requires suits { T.suits teller.now (set_of set.now) }
    ensures { IfOk result (λ a. reply_of a ≡ T.told teller.now (set_of set.now) (input_of input.now) (compiled_of compiled.now)) }
{
    match compiled.image.plant.policy {
        Replacement::Lru => teller.tell::<Lru>(alloc, set, input, compiled),
        Replacement::Fifo => teller.tell::<Fifo>(alloc, set, input, compiled),
    }
}

/// The answer to a set with its run file: it is compiled and told, or the first rule that it breaks is.
pub fn tell_set<T: Teller>(
    alloc: Global,
    teller: &T,
    set: &TaskSet,
    input: &RunInput,
) -> Result<Answer, Halt>
    requires lawful { IsLawfulRun (names_of (set_of set.now)) input.now }
    requires suits { T.suits teller.now (set_of set.now) }
    ensures answer { Comes reply_of (λ given. given ≡ Ok (set_reply (T.told teller.now) (set_of set.now) (input_of input.now))) result }
    ensures unread { IsErrOf result Halt.ReadFault → ⊥ }
{
    match compile(alloc, set) {
        Ok(compiled) => Ok(tell_compiled(alloc, teller, set, input, &compiled)?),
        Err(fail) => uncompiled(alloc, set, fail),
    }
}

/// The answer to the names of a set and a run file: the set and its sources are read, then the run file, and the set is compiled and
/// told. The first of these stages that doesn't go through decides.
pub fn tell_files<T: Teller, S: Store>(
    alloc: Global,
    teller: &T,
    name: &str,
    run: &str,
    store: &mut S,
) -> Result<Answer, Halt>
    requires { (set : SetText) → T.suits teller.now set }
    ensures answer { Comes reply_of (IsGiven (S.files store.old) (told_stages (T.told teller.now) name.now run.now)) result }
    ensures fault { IsErrOf result Halt.ReadFault → Rose (S.faults store.old) (S.faults store.new) }
    ensures later { S.faults store.old ≤ S.faults store.new }
    ensures same { S.files store.new ≡ S.files store.old }
{
    let set = match read_task_set(alloc, store, name) {
        Ok(set) => set,
        Err(halt) => return Err(halt),
    };
    let input = match read_run_file(alloc, store, run, &set) {
        Ok(input) => input,
        Err(halt) => return Err(halt),
    };
    tell_set(alloc, teller, &set, &input)
}
