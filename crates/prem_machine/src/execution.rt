// Instructions that are executed, as they are told one by one.
ghost use Rattle.std.specs.Prelude.{◌≡◌, ◌-◌, ◌<◌, ◌≤◌, ◌∷◌, ◌++◌, [], true, vec_capacity, vec_len};
ghost use Rattle.prem_machine.specs.Execution.{execution_since};

/// An instruction that was executed.
#[derive(Clone, Copy, PartialEq, Eq, Debug)]
pub struct Execution {
    /// The address of its word.
    pub pc: u32,
    /// The cycles that passed until the next one might issue.
    pub cycles: u64,
    /// The lines that it brought into the cache.
    pub misses: u64,
    /// The lines that were written back for them.
    pub backs: u64,
}

/// What is seen of a machine before it executes an instruction.
#[derive(Clone, Copy, PartialEq, Eq, Debug)]
pub(crate) struct ExecutionView {
    pub pc: u32,
    pub now: u64,
    pub misses: u64,
    pub backs: u64,
}

/// The instruction that was executed between two views of a machine.
#[inline(always)]
pub(crate) fn execution_since(before: ExecutionView, behind: ExecutionView) -> Execution
    requires now { before.now ≤ behind.now }
    requires misses { before.misses ≤ behind.misses }
    requires backs { before.backs ≤ behind.backs }
    ensures { result ≡ execution_since before behind }
{
    Execution {
        pc: before.pc,
        cycles: behind.now - before.now,
        misses: behind.misses - before.misses,
        backs: behind.backs - before.backs,
    }
}

/// Whether another instruction may be told, where they are told at all.
#[inline(always)]
pub(crate) fn has_room<const TOLD: bool>(told: &Vec<Execution>) -> bool
    ensures { result ≡ true → TOLD ≡ true → vec_len told.now < vec_capacity told.now }
{
    !TOLD || told.len() < told.capacity()
}

/// Tells of an instruction, where they are told.
#[inline(always)]
pub(crate) fn tell<const TOLD: bool>(told: &mut Vec<Execution>, execution: Execution)
    requires { TOLD ≡ true → vec_len told.old < vec_capacity told.old }
    ensures { TOLD ≡ true → told.new.items ≡ told.old.items ++ execution ∷ [] }
{
    if TOLD {
        told.push_reserved(execution);
    }
}
