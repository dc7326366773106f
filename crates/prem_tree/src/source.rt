// Runs programs as the language defines them.
ghost use Rattle.std.specs.Prelude.{◌≡◌, ◌≤◌, ℕ, length, map, IfOk, IsErrOf};
ghost use Rattle.prem_list.specs.Sequence.{items_of};
ghost use Rattle.prem_syntax.specs.SyntaxOf.{initial_of, global_of, program_of};
ghost use Rattle.prem_syntax.specs.Source.{constants_of, initial_words, source};
ghost use Rattle.prem_tree.specs.Checked.{checked_program};
ghost use Rattle.prem_tree.specs.Constant.{constant_word};
ghost use Rattle.prem_tree.specs.SourceRun.{IsRun, resolved_outcome};

use crate::checked::Checked;
use crate::resolve::{Resolved, resolve};
use crate::run::Callees;
use crate::state::{FnId, Interpreter, SourceFail, stored};
use prem_list::Sequence;
use prem_syntax::{Global, Initial, Ty};
use std::alloc::{AllocError, Global as Allocator};

/// What a run of a program gives.
#[derive(Drop)]
pub struct SourceRun {
    /// The output words in order.
    pub outputs: Sequence<u32>,
    /// The function of each marked call, in the order in which the calls end.
    pub marks: Sequence<FnId>,
    /// The globals at the end in the order of the text: the promoted words of each.
    pub globals: Sequence<Sequence<u32>>,
    /// The number of words taken from the inputs.
    pub used: usize,
}

fn constant_word(ty: Ty, z: i64) -> u32
    ensures { result ≡ constant_word ty z }
{
    stored(ty, z.rem_euclid(4294967296) as u32)
}

fn constant_words(alloc: Allocator, ty: Ty, constants: &[i64]) -> Result<Vec<u32>, AllocError>
    ensures { IfOk result (λ words. words.items ≡ map (constant_word ty) constants.now) }
{
    let mut words = Vec::new(alloc);
    for z in constants {
        words.push(constant_word(ty, *z))?;
    }
    Ok(words)
}

fn stated_words(alloc: Allocator, g: &Global) -> Result<Vec<u32>, AllocError>
    ensures { IfOk result (λ words. words.items ≡ map (constant_word g.now.ty) (constants_of (initial_of g.now.initial))) }
{
    match &g.initial {
        Initial::Absent => Ok(Vec::new(alloc)),
        Initial::One { value } => constant_words(alloc, g.ty, &[*value]),
        Initial::Many { values } => constant_words(alloc, g.ty, values.items()),
    }
}

/// The words of a global at the start: those that aren't stated are 0.
#[tactic(auto, using(crate::proofs::Filled::padded), unfolding(crate::specs::Constant::constant_word))]
pub fn initial_words(alloc: Allocator, g: &Global) -> Result<Vec<u32>, AllocError>
    ensures { IfOk result (λ words. words.items ≡ initial_words (global_of g.now)) }
{
    let mut words = stated_words(alloc, g)?;
    words.resize(g.len.unwrap_or(1) as usize, 0)?;
    Ok(words)
}

fn initial_globals(alloc: Allocator, globals: &[&Global]) -> Result<Vec<Vec<u32>>, AllocError>
    ensures { IfOk result (λ all. map (λ words. words.items) all.items ≡ map initial_words (map (λ g. global_of g.now) globals.now)) }
{
    let mut all = Vec::new(alloc);
    for g in globals {
        all.push(initial_words(alloc, g)?)?;
    }
    Ok(all)
}

fn words_listed(alloc: Allocator, words: &[u32]) -> Result<Sequence<u32>, AllocError>
    ensures { IfOk result (λ list. items_of list ≡ words.now) }
{
    let mut list = Sequence::new(alloc);
    for w in words {
        list.push(*w)?;
    }
    Ok(list)
}

fn globals_listed(
    alloc: Allocator,
    globals: &[Vec<u32>],
) -> Result<Sequence<Sequence<u32>>, AllocError>
    ensures { IfOk result (λ lists. map items_of (items_of lists) ≡ map (λ words. words.items) globals.now) }
{
    let mut lists = Sequence::new(alloc);
    for words in globals {
        lists.push(words_listed(alloc, words)?)?;
    }
    Ok(lists)
}

/// Runs so many jobs of a program whose names are resolved.
fn run_resolved(
    alloc: Allocator,
    resolved: &Resolved,
    inputs: &[u32],
    jobs: u32,
) -> Result<SourceRun, SourceFail>
    requires { length (items_of resolved.now.routines) ≤ 256 }
    ensures ok { IfOk result (λ run. IsRun run (resolved_outcome resolved.now inputs.now jobs)) }
    ensures wrong { (line : ℕ) → IsErrOf result (SourceFail.Wrong line) → IsErrOf (resolved_outcome resolved.now inputs.now jobs) line }
{
    let routines = resolved.routines.items();
    let mut interpreter = Interpreter {
        globals: initial_globals(alloc, &resolved.globals)?,
        inputs,
        used: 0,
        outputs: Sequence::new(alloc),
        marks: Sequence::new(alloc),
    };
    let callees = Callees {
        alloc,
        routines,
        below: routines.len(),
    };
    callees.run_jobs(&mut interpreter, resolved.job, jobs)?;
    let globals = globals_listed(alloc, &interpreter.globals)?;
    Ok(SourceRun {
        outputs: interpreter.outputs,
        marks: interpreter.marks,
        globals,
        used: interpreter.used,
    })
}

/// Runs so many jobs of a program, one after another, as the language defines it.
///
/// It gives what the run did, or fails with `Wrong` and the line at which the run goes wrong, or with `OutOfMemory` for
/// want of memory. It returns on every program; that its time is in proportion to the statements that the run does is
/// no part of its contract.
pub fn source_run(
    alloc: Allocator,
    p: &Checked,
    inputs: &[u32],
    jobs: u32,
) -> Result<SourceRun, SourceFail>
    ensures ok { IfOk result (λ run. IsRun run (source (program_of (checked_program p.now)) inputs.now jobs)) }
    ensures wrong { (line : ℕ) → IsErrOf result (SourceFail.Wrong line) → IsErrOf (source (program_of (checked_program p.now)) inputs.now jobs) line }
{
    let resolved = resolve(alloc, p.program())?;
    run_resolved(alloc, &resolved, inputs, jobs)
}
