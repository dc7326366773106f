// What the generator knows of a task.
ghost use Rattle.std.specs.Prelude.{◌≡◌};

use prem_plant::Target;
use std::alloc::Global;

/// What a call of a function needs.
#[derive(Clone, Copy, Debug, PartialEq, Eq)]
pub struct Callee {
    /// The bytes of its frame.
    pub frame: u64,
    /// The register that keeps the place behind the call.
    pub link: u8,
    /// The part to which the call goes.
    pub part: u32,
}

/// The target, the parts of a task, and the turn bounds of its counting loops.
#[derive(Clone, Copy)]
pub struct Task<'a> {
    pub alloc: Global,
    pub target: Target,
    /// The part of the first global.
    pub first: u32,
    pub turns: &'a [u32],
    pub callees: &'a [Callee],
}

impl Task<'_> {
    ghost use Rattle.std.specs.Prelude.{◌≡◌};
    ghost use Rattle.prem_gen.specs.Term.Numbers.{IsSmall};
    ghost use Rattle.prem_gen.specs.Routine.Parts.{callee_at, turns_in};

    /// What a call of function f needs.
    pub fn callee(&self, f: usize) -> Callee
        requires { IsSmall f }
        ensures { result ≡ callee_at self.now.callees.now f }
    {
        match self.callees.get(f) {
            Some(callee) => *callee,
            None => Callee {
                frame: 0,
                link: 1,
                part: 1 + f as u32,
            },
        }
    }

    /// The turns of the counting loop with a number.
    pub fn turns(&self, m: usize) -> u32
        ensures { result ≡ turns_in self.now m }
    {
        match self.turns.get(m) {
            Some(turns) => *turns,
            None => 0,
        }
    }
}

/// The next counter's slot, and the number of the next counting loop.
#[derive(Clone, Copy, Debug, PartialEq, Eq)]
pub struct Numbers {
    pub counter: u32,
    pub turn: usize,
}
