// The table of a task's functions.
ghost use Rattle.std.specs.Prelude.{◌≡◌, ◌≤◌, ◌<◌, ◌+◌, ◌^◌, IfOk, length};
ghost use Rattle.prem_gen.specs.Table.Table.{marks, all_marks, callee_of, callees_from};

use crate::routine::{Callee, frame};
use prem_tree::resolve::Routine;
use std::alloc::{AllocError, Global};

/// What a call of function n needs, if `stub` is the part of the next stub.
fn callee_of(routine: &Routine<'_>, stub: u32, n: u32) -> Callee
    requires { n ≤ 2 ^ 16 }
    ensures { result ≡ callee_of stub n routine.now }
{
    match routine.text.mark {
        Some(_) => Callee {
            frame: frame(routine),
            link: 4,
            part: stub,
        },
        None => Callee {
            frame: frame(routine),
            link: 1,
            part: 1 + n,
        },
    }
}

/// How many stubs the function has: one, if it is marked.
fn marks(routine: &Routine<'_>) -> u32
    ensures value { result ≡ marks routine.now }
    ensures most { result ≤ 1 }
{
    match routine.text.mark {
        Some(_) => 1,
        None => 0,
    }
}

/// What calls of functions need: their code stands behind the start, their stubs behind all code.
pub fn callees(alloc: Global, routines: &[Routine<'_>]) -> Result<Vec<Callee>, AllocError>
    requires { length routines.now ≤ 2 ^ 16 }
    ensures { IfOk result (λ list. list.items ≡ callees_from (1 + length routines.now) 0 routines.now) }
{
    let mut list = Vec::new(alloc);
    let mut stub = 1 + routines.len() as u32;
    let mut n = 0u32;
    for routine in routines {
        list.push(callee_of(routine, stub, n))?;
        stub += marks(routine);
        n += 1;
    }
    Ok(list)
}

/// The part of the first global: behind the start, the code and the stubs of the functions.
pub fn first_global(routines: &[Routine<'_>]) -> u32
    requires { length routines.now ≤ 2 ^ 16 }
    ensures value { result ≡ 1 + length routines.now + all_marks routines.now }
    ensures small { result < 2 ^ 31 }
{
    let mut stubs = 0u32;
    for routine in routines {
        stubs += marks(routine);
    }
    1 + routines.len() as u32 + stubs
}
