// Checks a program.
ghost use Rattle.std.specs.Prelude.{◌≡◌, Some, IsNone, IfSome, IfOk};
ghost use Rattle.std.specs.Option.{option_map};
ghost use Rattle.prem_syntax.specs.SyntaxOf.{program_of};
ghost use Rattle.prem_syntax.specs.ProgramRules.{IsWellFormed, first_breach};
ghost use Rattle.prem_check.specs.FoundOf.{breach_of, rule_of};
ghost use Rattle.prem_check.specs.Told.{at_line, told_of, said, IsAnswer};

use crate::fail::CheckFail;
use crate::found::{Broken, Rule};
use crate::program::first_broken;
use prem_syntax::copy_name;
use prem_tree::{Checked, Program};
use std::alloc::{AllocError, Global};

/// What is told of a rule that is broken at a line.
fn told_at(alloc: Global, line: u32, rule: Rule) -> Result<CheckFail, AllocError>
    ensures { IfOk result (λ fail. said fail ≡ at_line line (rule_of rule.entry)) }
{
    Ok(match rule {
        Rule::Unknown { name } => CheckFail::Unknown {
            line,
            name: copy_name(alloc, name)?,
        },
        Rule::Twice { name } => CheckFail::Twice {
            line,
            name: copy_name(alloc, name)?,
        },
        Rule::OfTypes { rule } => CheckFail::TypeRule { line, rule },
        Rule::CallOrder => CheckFail::CallOrder { line },
        Rule::MarkedCall => CheckFail::MarkedCall { line },
        Rule::SystemCall => CheckFail::SystemCall { line },
        Rule::LoopForm => CheckFail::LoopForm { line },
    })
}

/// What is told of a broken rule.
fn told(alloc: Global, broken: Broken) -> Result<CheckFail, AllocError>
    ensures { IfOk result (λ fail. said fail ≡ Some (told_of (breach_of broken.entry))) }
{
    match broken {
        Broken::Limit { which } => Ok(CheckFail::Limit { which }),
        Broken::NoJob => Ok(CheckFail::NoJob),
        Broken::At { at, rule } => told_at(alloc, at.line, rule),
    }
}

/// What is told of the first broken rule of a program, if one is broken.
fn refusal(alloc: Global, p: &Program) -> Result<Option<CheckFail>, AllocError>
    ensures none { IfOk result (λ fail. IsNone fail → IsWellFormed (program_of p.now)) }
    ensures some { IfOk result (λ fail. IfSome fail (λ fail. said fail ≡ option_map told_of (first_breach (program_of p.now)))) }
{
    match first_broken(alloc, p)? {
        Some(broken) => Ok(Some(told(alloc, broken)?)),
        None => Ok(None),
    }
}

/// Checks a program: names are known and distinct, types fit, calls go to earlier functions, and loops have the form of
/// a counting or a bounded loop.
///
/// Gives the program as a checked one where it breaks no rule. Else it is dropped, and the refusal is the first rule
/// that it breaks: those of the whole first, then by place, then in the order in which `CheckFail` lists them, where
/// the rules on types have the order of `TypeRule`. `OutOfMemory` comes only for want of memory.
pub fn check(alloc: Global, p: Program) -> Result<Checked, CheckFail>
    ensures { IsAnswer p result }
{
    if let Some(fail) = refusal(alloc, &p)? {
        return Err(fail);
    }
    Ok(Checked::adopt(p))
}
