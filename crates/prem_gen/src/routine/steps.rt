// The code of steps.
ghost use Rattle.std.specs.Prelude.{◌≡◌, ◌<◌, ◌+◌, ◌^◌, OnOk, IfOk};
ghost use Rattle.prem_list.specs.Sequence.{items_of};
ghost use Rattle.prem_tree.specs.Resolve.ResolvedOf.{loops_of, list_loops};
ghost use Rattle.prem_asm.specs.Pieces.{followed, straight};
ghost use Rattle.prem_asm.specs.PiecesOf.{pieces_of};
ghost use Rattle.prem_layout.specs.Template.Terms.{only};
ghost use Rattle.prem_layout.specs.Template.Steps.{step_code, count_code};
ghost use Rattle.prem_gen.specs.Term.Numbers.{IsSmall};
ghost use Rattle.prem_gen.specs.Term.Deep.{Finds};
ghost use Rattle.prem_gen.specs.Routine.Parts.{parts_in, turns_in};
ghost use Rattle.prem_gen.specs.Routine.Small.{StepSmall, ListSmall};
ghost use Rattle.prem_gen.specs.Routine.StepCode.{whiles_of, list_whiles, code_at, list_code, deep_in, list_deep};

use crate::routine::single::{
    bound_head, bound_test, put_advance, put_call, put_count, put_input, put_output,
    put_set_element, put_set_local, put_set_scalar, put_store_slot, turn_head,
};
use crate::routine::task::{Numbers, Task};
use crate::term::{TermFail, nonzero, put_constant, put_term};
use prem_asm::{Piece, Sequence, put_choice, put_loop};
use prem_tree::resolve::Step;

/// The code of a step alone.
#[cycle(steps)]
fn step_alone(
    step: &Step,
    task: &Task<'_>,
    numbers: &mut Numbers,
) -> Result<Sequence<Piece>, TermFail>
    requires first { task.now.first < 2 ^ 31 }
    requires small { StepSmall task.now.callees.now step.now }
    requires counters { numbers.old.counter + whiles_of step.now < 2 ^ 16 }
    requires turns { numbers.old.turn + loops_of step.now < 2 ^ 64 }
    ensures pieces { IfOk result (λ pieces. pieces_of (items_of pieces) ≡ code_at (parts_in task.now) (turns_in task.now) numbers.old.counter numbers.old.turn step.now) }
    ensures counter { OnOk result (numbers.new.counter ≡ numbers.old.counter + whiles_of step.now) }
    ensures turn { OnOk result (numbers.new.turn ≡ numbers.old.turn + loops_of step.now) }
    ensures deep { Finds result (deep_in step.now) }
{
    let mut pieces = Sequence::new(task.alloc);
    put_step(step, task, &mut pieces, numbers)?;
    Ok(pieces)
}

/// The body of a counting loop, whose variable goes on behind it.
#[cycle(steps)]
fn counting_body(
    body: &Step,
    task: &Task<'_>,
    numbers: &mut Numbers,
    number: usize,
    step: u32,
) -> Result<Sequence<Piece>, TermFail>
    requires first { task.now.first < 2 ^ 31 }
    requires small { StepSmall task.now.callees.now body.now }
    requires counters { numbers.old.counter + whiles_of body.now < 2 ^ 16 }
    requires turns { numbers.old.turn + 1 + loops_of body.now < 2 ^ 64 }
    requires number { IsSmall number }
    requires step { step < 2 ^ 11 }
    ensures pieces { IfOk result (λ pieces. pieces_of (items_of pieces) ≡ followed (code_at (parts_in task.now) (turns_in task.now) numbers.old.counter (numbers.old.turn + 1) body.now) (only (step_code number step))) }
    ensures counter { OnOk result (numbers.new.counter ≡ numbers.old.counter + whiles_of body.now) }
    ensures turn { OnOk result (numbers.new.turn ≡ numbers.old.turn + (1 + loops_of body.now)) }
    ensures deep { Finds result (deep_in body.now) }
{
    numbers.turn += 1;
    let mut pieces = step_alone(body, task, numbers)?;
    put_advance(task.alloc, &mut pieces, number, step)?;
    Ok(pieces)
}

/// The body of a `BOUNDED` loop, before which its counter goes down.
#[cycle(steps)]
fn bounded_body(
    body: &Step,
    task: &Task<'_>,
    numbers: &mut Numbers,
) -> Result<Sequence<Piece>, TermFail>
    requires first { task.now.first < 2 ^ 31 }
    requires small { StepSmall task.now.callees.now body.now }
    requires counters { numbers.old.counter + 1 + whiles_of body.now < 2 ^ 16 }
    requires turns { numbers.old.turn + loops_of body.now < 2 ^ 64 }
    ensures pieces { IfOk result (λ pieces. pieces_of (items_of pieces) ≡ straight (count_code numbers.old.counter) (code_at (parts_in task.now) (turns_in task.now) (numbers.old.counter + 1) numbers.old.turn body.now)) }
    ensures counter { OnOk result (numbers.new.counter ≡ numbers.old.counter + (1 + whiles_of body.now)) }
    ensures turn { OnOk result (numbers.new.turn ≡ numbers.old.turn + loops_of body.now) }
    ensures deep { Finds result (deep_in body.now) }
{
    let mut pieces = Sequence::new(task.alloc);
    put_count(task.alloc, &mut pieces, numbers.counter)?;
    numbers.counter += 1;
    put_step(body, task, &mut pieces, numbers)?;
    Ok(pieces)
}

/// The code of a step behind other code.
#[cycle(steps)]
#[tactic(auto, using(prem_asm::proofs::Rows::followed_append))]
pub fn put_step(
    step: &Step,
    task: &Task<'_>,
    pieces: &mut Sequence<Piece>,
    numbers: &mut Numbers,
) -> Result<(), TermFail>
    requires first { task.now.first < 2 ^ 31 }
    requires small { StepSmall task.now.callees.now step.now }
    requires counters { numbers.old.counter + whiles_of step.now < 2 ^ 16 }
    requires turns { numbers.old.turn + loops_of step.now < 2 ^ 64 }
    ensures pieces { OnOk result (pieces_of (items_of pieces.new) ≡ followed (pieces_of (items_of pieces.old)) (code_at (parts_in task.now) (turns_in task.now) numbers.old.counter numbers.old.turn step.now)) }
    ensures counter { OnOk result (numbers.new.counter ≡ numbers.old.counter + whiles_of step.now) }
    ensures turn { OnOk result (numbers.new.turn ≡ numbers.old.turn + loops_of step.now) }
    ensures deep { Finds result (deep_in step.now) }
{
    match step {
        Step::Block { body } => put_steps(body.items(), task, pieces, numbers),
        Step::SetLocal { number, value, .. } => put_set_local(task, pieces, *number, value),
        Step::SetScalar {
            global,
            ty,
            value,
            ..
        } => put_set_scalar(task, pieces, *global, *ty, value),
        Step::SetElement {
            global,
            ty,
            index,
            value,
            ..
        } => put_set_element(task, pieces, *global, *ty, index, value),
        Step::Output { value, .. } => put_output(task, pieces, value),
        Step::Input { number, .. } => {
            put_input(task, pieces, *number)?;
            Ok(())
        }
        Step::If {
            condition,
            taken,
            other,
            ..
        } => {
            put_term(condition, task.alloc, task.target, task.first, pieces, 10)?;
            let taken = step_alone(taken, task, numbers)?;
            let other = step_alone(other, task, numbers)?;
            put_choice(pieces, nonzero(10), taken, other)?;
            Ok(())
        }
        Step::For {
            number,
            low,
            closed,
            high,
            step,
            body,
            ..
        } => {
            put_set_local(task, pieces, *number, low)?;
            let head = bound_head(task, *number, high)?;
            let turns = task.turns(numbers.turn);
            let body = counting_body(body, task, numbers, *number, *step)?;
            put_loop(pieces, turns, head, bound_test(*closed), body)?;
            Ok(())
        }
        Step::While {
            turns,
            condition,
            body,
            ..
        } => {
            put_constant(task.alloc, pieces, 10, *turns)?;
            put_store_slot(task.alloc, pieces, numbers.counter)?;
            let head = turn_head(task, numbers.counter, condition)?;
            let body = bounded_body(body, task, numbers)?;
            put_loop(pieces, *turns, head, nonzero(10), body)?;
            Ok(())
        }
        Step::Call {
            target,
            callee,
            arguments,
            ..
        } => put_call(task, pieces, *target, *callee, arguments.items()),
    }
}

/// The code of steps behind other code.
#[cycle(steps)]
pub fn put_steps(
    steps: &[Step],
    task: &Task<'_>,
    pieces: &mut Sequence<Piece>,
    numbers: &mut Numbers,
) -> Result<(), TermFail>
    requires first { task.now.first < 2 ^ 31 }
    requires small { ListSmall task.now.callees.now steps.now }
    requires counters { numbers.old.counter + list_whiles steps.now < 2 ^ 16 }
    requires turns { numbers.old.turn + list_loops steps.now < 2 ^ 64 }
    ensures pieces { OnOk result (pieces_of (items_of pieces.new) ≡ followed (pieces_of (items_of pieces.old)) (list_code (parts_in task.now) (turns_in task.now) numbers.old.counter numbers.old.turn steps.now)) }
    ensures counter { OnOk result (numbers.new.counter ≡ numbers.old.counter + list_whiles steps.now) }
    ensures turn { OnOk result (numbers.new.turn ≡ numbers.old.turn + list_loops steps.now) }
    ensures deep { Finds result (list_deep steps.now) }
{
    for step in steps {
        put_step(step, task, pieces, numbers)?;
    }
    Ok(())
}
