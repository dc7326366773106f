// The rules of the first two groups that texts and programs break.
ghost use Rattle.std.specs.Prelude.{◌≡◌, ◌<◌};
ghost use Rattle.std.specs.Option.{option_map};
ghost use Rattle.prem_tasks.specs.Told.{told_of};
ghost use Rattle.prem_stages.specs.Stages.{StopsBy, program_told, text_told};

use prem_check::CheckFail;
use prem_front::FrontFail;
use prem_tasks::{Rule, Stop, refused};
use std::alloc::Global;

/// The rule by which a text is no program, unless memory ran out.
pub fn front_rule(fail: FrontFail) -> Option<Rule>
    ensures { option_map told_of result ≡ text_told fail }
{
    match fail {
        FrontFail::NotText { at } => Some(Rule::NotText { at }),
        FrontFail::Token { line, col } => Some(Rule::Token { line, col }),
        FrontFail::Syntax { line, col } => Some(Rule::Syntax { line, col }),
        FrontFail::TooLong => Some(Rule::TooLong),
        FrontFail::TooDeep { line } => Some(Rule::TooDeep { line }),
        FrontFail::OutOfMemory => None,
    }
}

/// The rule that a program breaks, unless memory ran out.
pub fn check_rule(fail: CheckFail) -> Option<Rule>
    ensures { option_map told_of result ≡ program_told fail }
{
    match fail {
        CheckFail::Limit { which } => Some(Rule::Limit { which }),
        CheckFail::NoJob => Some(Rule::NoJob),
        CheckFail::Unknown { line, name } => Some(Rule::Unknown { line, name }),
        CheckFail::Twice { line, name } => Some(Rule::Twice { line, name }),
        CheckFail::TypeRule { line, rule } => Some(Rule::TypeRule { line, rule }),
        CheckFail::CallOrder { line } => Some(Rule::CallOrder { line }),
        CheckFail::MarkedCall { line } => Some(Rule::MarkedCall { line }),
        CheckFail::SystemCall { line } => Some(Rule::SystemCall { line }),
        CheckFail::LoopForm { line } => Some(Rule::LoopForm { line }),
        CheckFail::OutOfMemory => None,
    }
}

/// A task breaks this rule; without one memory ran out.
pub(crate) fn stopped(alloc: Global, task: usize, rule: Option<Rule>) -> Stop
    requires { task < 16 }
    ensures { StopsBy task (option_map told_of rule) result }
{
    match rule {
        Some(rule) => refused(alloc, task, rule),
        None => Stop::OutOfMemory,
    }
}
