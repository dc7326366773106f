// How the rules on placed tasks stop the compiler.
ghost use Rattle.std.specs.Prelude.{◌≡◌, ◌≤◌, None, Some, length, map};
ghost use Rattle.prem_syntax.specs.Name.{name_bytes};
ghost use Rattle.prem_place.specs.Placed.PlacedOf.{placed_of};
ghost use Rattle.prem_place.specs.Verdict.Told.{HasFunction, function_in, refusal_of, rule_of};
ghost use Rattle.prem_place.specs.Words.Far.{refusal_of as far_refusal};
ghost use Rattle.prem_tasks.specs.Broken.{late_refusal};
ghost use Rattle.prem_tasks.specs.Stops.{Stops};
ghost use Rattle.prem_tasks.specs.Told.{told_of, of_code};

use prem_place::placed::PlacedTask;
use prem_place::verdict::{Blame, Verdict, function_name};
use prem_place::words::FarJump;
use prem_plant::FnId;
use prem_syntax::Name;
use prem_tasks::{Refusal, Rule, Stop, refused};
use std::alloc::Global;

/// The set as a whole breaks a rule.
pub fn refused_whole(alloc: Global, rule: Rule) -> Stop
    ensures { Stops result (Some (record { task = None; rule = told_of rule })) }
{
    match Box::new(alloc, Refusal { task: None, rule }) {
        Ok(refusal) => Stop::Refused(refusal),
        Err(_) => Stop::OutOfMemory,
    }
}

/// The function whose jump is out of reach is told by its name.
pub fn unreached(alloc: Global, tasks: &[PlacedTask], jump: FarJump) -> Stop
    requires count { length tasks.now ≤ 16 }
    requires there { HasFunction (map placed_of tasks.now) jump.task jump.function }
    ensures { Stops result (late_refusal (Some (far_refusal (map placed_of tasks.now) jump))) }
{
    match function_name(alloc, tasks, jump.task, jump.function) {
        Ok(function) => refused(alloc, usize::from(jump.task), Rule::Reach { function }),
        Err(_) => Stop::OutOfMemory,
    }
}

/// The marked function, or the `job`, that breaks a rule.
fn function_in(verdict: Verdict) -> FnId
    ensures { result ≡ function_in verdict }
{
    match verdict {
        Verdict::Conflict(clash) => clash.function,
        Verdict::BoundTooLarge(function) => function,
        Verdict::Length { function, .. } => function,
    }
}

/// The rule that is broken, with the function's name.
fn rule(function: Name, verdict: Verdict) -> Rule
    ensures { told_of result ≡ of_code (rule_of (name_bytes function) verdict) }
{
    match verdict {
        Verdict::Conflict(clash) => Rule::Conflict {
            function,
            set: clash.conflict.set,
            lines: clash.conflict.lines,
            ways: clash.conflict.ways,
        },
        Verdict::BoundTooLarge(_) => Rule::BoundTooLarge { function },
        Verdict::Length { bound, stated, .. } => Rule::Length {
            function,
            bound,
            stated,
        },
    }
}

/// A task breaks a rule on its marked functions.
pub fn blamed(alloc: Global, tasks: &[PlacedTask], blame: Blame) -> Stop
    requires count { length tasks.now ≤ 16 }
    requires there { HasFunction (map placed_of tasks.now) blame.task (function_in blame.verdict) }
    ensures { Stops result (late_refusal (Some (refusal_of (map placed_of tasks.now) blame))) }
{
    match function_name(alloc, tasks, blame.task, function_in(blame.verdict)) {
        Ok(name) => refused(alloc, usize::from(blame.task), rule(name, blame.verdict)),
        Err(_) => Stop::OutOfMemory,
    }
}
