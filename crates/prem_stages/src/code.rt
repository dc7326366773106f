// The fourth group of rules: the programs of all tasks get their code.
ghost use Rattle.std.specs.Prelude.{◌≡◌, ◌≤◌, ◌<◌, Some, IfOk, length, map};
ghost use Rattle.std.specs.List.{AllByRecursion};
ghost use Rattle.prem_ranges.specs.RangesKept.{bounded};
ghost use Rattle.prem_layout.specs.Template.Limits.{excess};
ghost use Rattle.prem_layout.specs.Rules.{refused_by, over_tasks};
ghost use Rattle.prem_gen.specs.Term.Excess.{Exceeds};
ghost use Rattle.prem_tasks.specs.Told.{told_of};
ghost use Rattle.prem_tasks.specs.Stops.{Ends};
ghost use Rattle.prem_stages.specs.Stages.{checked_text, uncoded};
ghost use Rattle.prem_stages.specs.Programs.{IsBounded, IsCodedProgram, bounded_text, coded_text};

use crate::analyse::BoundedProgram;
use crate::names::{item_names, name_at};
use prem_gen::{GenFail, Piece, Sequence, gen_all};
use prem_plant::Target;
use prem_tasks::{Rule, Stop, refused};
use prem_tree::Checked;
use std::alloc::{AllocError, Global};

/// The code of the functions of a program, in the order of the text.
pub type Codes = Sequence<Sequence<Piece>>;

/// A program with its code.
#[derive(Drop)]
pub struct CodedProgram<'p> {
    pub program: BoundedProgram<'p>,
    pub code: Codes,
}

/// The rule that a program breaks which has no code, with a name in place of a number. Want of memory is no rule.
fn code_rule(alloc: Global, program: &Checked, fail: GenFail) -> Result<Rule, AllocError>
    requires { Exceeds fail (excess (bounded (checked_text program.now))) }
    ensures { IfOk result (λ rule. uncoded (checked_text program.now) ≡ Some (told_of rule)) }
{
    match fail {
        GenFail::Frame { function } => {
            let names = item_names(alloc, program.program())?;
            let function = name_at(alloc, &names.functions, function)?;
            Ok(Rule::Frame { function })
        }
        GenFail::Depth { line } => Ok(Rule::Depth { line }),
        GenFail::OutOfMemory => Err(AllocError),
    }
}

/// A task's program with its code for a target, or why it has none.
fn code_one<'p>(
    alloc: Global,
    task: usize,
    program: BoundedProgram<'p>,
    target: Target,
) -> Result<CodedProgram<'p>, Stop>
    requires task { task < 16 }
    requires program { IsBounded program }
    ensures ends { Ends result (refused_by (Some task) (uncoded (bounded_text program.entry))) }
    ensures program { IfOk result (λ c. coded_text c ≡ bounded_text program.entry) }
    ensures coded { IfOk result (IsCodedProgram target) }
{
    let checked = program.checked;
    match gen_all(alloc, checked, &program.resolved, &program.turns, target) {
        Ok(code) => Ok(CodedProgram { program, code }),
        Err(fail) => Err(refused(alloc, task, code_rule(alloc, checked, fail)?)),
    }
}

/// The programs with their code for a target, or the first that has none: a frame passes 2032 bytes, or an expression needs a register past
/// the twelfth.
pub fn code_all<'p>(
    alloc: Global,
    programs: Vec<BoundedProgram<'p>>,
    target: Target,
) -> Result<Vec<CodedProgram<'p>>, Stop>
    requires few { length programs.items ≤ 16 }
    requires bounded { AllByRecursion IsBounded programs.items }
    ensures ends { Ends result (over_tasks uncoded (map bounded_text programs.entry.items)) }
    ensures programs { IfOk result (λ all. map coded_text all.items ≡ map bounded_text programs.entry.items) }
    ensures coded { IfOk result (λ all. AllByRecursion (IsCodedProgram target) all.items) }
{
    let mut all = Vec::new(alloc);
    let mut n = 0;
    for program in programs {
        all.push(code_one(alloc, n, program, target)?)?;
        n += 1;
    }
    Ok(all)
}
