// What is known of the functions of a program: frames, calls and depths.
ghost use Rattle.std.specs.Prelude.{IfOk};
ghost use Rattle.prem_split.specs.PlansWith.{AreFacts, MayHavePlans};

use crate::tables::depths;
use crate::walk::frames;
use prem_analysis::marks::callee_table;
use prem_tree::resolve::Resolved;
use std::alloc::{AllocError, Global};

/// What plans and the stack of a program are made from, of each function in the order of the text.
#[derive(Drop)]
pub struct FunctionFacts {
    /// Its frame in bytes.
    pub frames: Vec<u32>,
    /// The functions that it calls.
    pub calls: Vec<Vec<usize>>,
    /// The bytes of stack that it takes with all that it calls.
    pub depths: Vec<u32>,
}

/// What is known of the functions of a program whose names are resolved. It fails only for want of memory.
pub fn facts_of(alloc: Global, r: &Resolved) -> Result<FunctionFacts, AllocError>
    requires { MayHavePlans r.now }
    ensures { IfOk result (AreFacts r.now) }
{
    let fs = r.routines.items();
    let frames = frames(alloc, fs)?;
    let calls = callee_table(alloc, fs)?;
    let depths = depths(alloc, &frames, &calls)?;
    Ok(FunctionFacts {
        frames,
        calls,
        depths,
    })
}
