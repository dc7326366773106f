// Runs statements and calls.
ghost use Rattle.std.specs.Prelude.{◌≡◌, ℕ, ◌≤◌, List, [], map, length};
ghost use Rattle.prem_syntax.specs.Statements.{bounded, holds};
ghost use Rattle.prem_syntax.specs.Source.{everywhere};
ghost use Rattle.prem_tree.specs.Resolve.ResolvedOf.{term_of};
ghost use Rattle.prem_tree.specs.State.Interpreter.{state_of, Gives};
ghost use Rattle.prem_tree.specs.StepMeaning.{do_step, do_list, do_counting, do_call, noted_calls, noted_jobs};

use crate::resolve::{Routine, Step, Term};
use crate::state::{Counter, FnId, Interpreter, SourceFail, set_local};
use std::alloc::Global;

/// The turns that a counting loop may take: an int has no more values.
const MOST_TURNS: u64 = 4294967296;

/// The functions of a program; those before the function at work may be called.
#[derive(Clone, Copy)]
pub struct Callees<'a> {
    pub alloc: Global,
    pub routines: &'a [Routine<'a>],
    /// The functions with a smaller number may be called.
    pub below: usize,
}

impl Callees<'_> {
    /// A statement.
    #[cycle(run)]
    fn run_step(
        &self,
        interpreter: &mut Interpreter,
        locals: &mut Vec<u32>,
        step: &Step,
    ) -> Result<(), SourceFail>
        requires { length self.now.routines.now ≤ 256 }
        ensures { Gives result (do_step (noted_calls self.now.routines.now self.now.below) step.now (state_of interpreter.old locals.old.items)) (λ _. state_of interpreter.new locals.new.items) }
    {
        match step {
            Step::Block { body } => self.run_steps(interpreter, locals, body.items()),
            Step::SetLocal { number, value, .. } => interpreter.set_local(locals, *number, value),
            Step::SetScalar {
                at,
                global,
                ty,
                value,
            } => interpreter.set_scalar(locals, at.line, *global, *ty, value),
            Step::SetElement {
                at,
                global,
                ty,
                index,
                value,
            } => interpreter.set_element(locals, at.line, *global, *ty, index, value),
            Step::Output { value, .. } => interpreter.output(locals, value),
            Step::Input { number, .. } => {
                interpreter.take_input(locals, *number);
                Ok(())
            }
            Step::If {
                condition,
                taken,
                other,
                ..
            } => {
                if interpreter.holds(locals, condition)? {
                    self.run_step(interpreter, locals, taken)
                } else {
                    self.run_step(interpreter, locals, other)
                }
            }
            Step::For {
                at,
                number,
                low,
                closed,
                high,
                step,
                body,
            } => {
                interpreter.set_local(locals, *number, low)?;
                let counter = Counter {
                    line: at.line,
                    number: *number,
                    closed: *closed,
                    high,
                    step: *step,
                };
                self.run_counting(interpreter, locals, MOST_TURNS, &counter, body)
            }
            Step::While {
                turns,
                condition,
                body,
                ..
            } => self.run_bounded(interpreter, locals, *turns, condition, body),
            Step::Call {
                target,
                callee,
                arguments,
                ..
            } => self.call(interpreter, locals, *target, *callee, arguments.items()),
        }
    }

    /// Statements, one after another.
    #[cycle(run)]
    fn run_steps(
        &self,
        interpreter: &mut Interpreter,
        locals: &mut Vec<u32>,
        steps: &[Step],
    ) -> Result<(), SourceFail>
        requires { length self.now.routines.now ≤ 256 }
        ensures { Gives result (do_list (noted_calls self.now.routines.now self.now.below) steps.now (state_of interpreter.old locals.old.items)) (λ _. state_of interpreter.new locals.new.items) }
    {
        for step in steps {
            self.run_step(interpreter, locals, step)?;
        }
        Ok(())
    }

    /// The turns of a counting loop, so many at most.
    #[cycle(run)]
    fn run_counting(
        &self,
        interpreter: &mut Interpreter,
        locals: &mut Vec<u32>,
        turns: u64,
        counter: &Counter,
        body: &Step,
    ) -> Result<(), SourceFail>
        requires { length self.now.routines.now ≤ 256 }
        ensures { Gives result (do_counting turns counter.now.line counter.now.number counter.now.closed (term_of counter.now.high.now) counter.now.step (do_step (noted_calls self.now.routines.now self.now.below) body.now) (state_of interpreter.old locals.old.items)) (λ _. state_of interpreter.new locals.new.items) }
    {
        let mut left = turns;
        'turns: while counter.holds(interpreter, locals)? {
            if left == 0 {
                return Err(SourceFail::Wrong { line: counter.line });
            }
            left -= 1;
            self.run_step(interpreter, locals, body)?;
            counter.advance(interpreter, locals)?;
        }
        Ok(())
    }

    /// The turns of `BOUNDED(turns) while (condition) body`.
    #[cycle(run)]
    fn run_bounded(
        &self,
        interpreter: &mut Interpreter,
        locals: &mut Vec<u32>,
        turns: u32,
        condition: &Term,
        body: &Step,
    ) -> Result<(), SourceFail>
        requires { length self.now.routines.now ≤ 256 }
        ensures { Gives result (bounded turns (holds everywhere (term_of condition.now)) (do_step (noted_calls self.now.routines.now self.now.below) body.now) (state_of interpreter.old locals.old.items)) (λ _. state_of interpreter.new locals.new.items) }
    {
        let mut left = turns;
        'turns: while left > 0 {
            if !interpreter.holds(locals, condition)? {
                return Ok(());
            }
            left -= 1;
            self.run_step(interpreter, locals, body)?;
        }
        Ok(())
    }

    /// `callee(arguments);` or `target = callee(arguments);`
    #[cycle(run)]
    fn call(
        &self,
        interpreter: &mut Interpreter,
        locals: &mut Vec<u32>,
        target: Option<usize>,
        callee: usize,
        arguments: &[Term],
    ) -> Result<(), SourceFail>
        requires { length self.now.routines.now ≤ 256 }
        ensures { Gives result (do_call (noted_calls self.now.routines.now self.now.below) target callee (map term_of arguments.now) (state_of interpreter.old locals.old.items)) (λ _. state_of interpreter.new locals.new.items) }
    {
        let words = interpreter.values(self.alloc, locals, arguments)?;
        let w = self.run_call(interpreter, callee, words)?;
        if let Some(number) = target {
            set_local(locals, number, w);
        }
        Ok(())
    }

    /// Calls a function with its arguments, and gives its result.
    #[cycle(run)]
    pub fn run_call(
        &self,
        interpreter: &mut Interpreter,
        callee: usize,
        arguments: Vec<u32>,
    ) -> Result<u32, SourceFail>
        requires { length self.now.routines.now ≤ 256 }
        ensures { (ls : List ℕ) → Gives result (noted_calls self.now.routines.now self.now.below callee arguments.items (state_of interpreter.old ls)) (λ w. (w, state_of interpreter.new ls)) }
    {
        let mut locals = arguments;
        if callee >= self.below {
            return Err(SourceFail::Wrong { line: 0 });
        }
        let Some(routine) = self.routines.get(callee) else {
            return Err(SourceFail::Wrong { line: 0 });
        };
        let callees = Callees {
            alloc: self.alloc,
            routines: self.routines,
            below: callee,
        };
        interpreter.declare(&mut locals, routine.locals.items())?;
        callees.run_step(interpreter, &mut locals, &routine.body)?;
        let w = interpreter.result_of(&locals, &routine.result)?;
        interpreter.note(routine.text, callee as FnId)?;
        Ok(w)
    }

    /// Jobs, one after another: each is a call of the function `job` without arguments.
    pub fn run_jobs(
        &self,
        interpreter: &mut Interpreter,
        job: usize,
        jobs: u32,
    ) -> Result<(), SourceFail>
        requires few { length self.now.routines.now ≤ 256 }
        requires all { self.now.below ≡ length self.now.routines.now }
        ensures { Gives result (noted_jobs self.now.routines.now job jobs (state_of interpreter.old [])) (λ _. state_of interpreter.new []) }
    {
        let mut left = jobs;
        'jobs: while left > 0 {
            left -= 1;
            self.run_call(interpreter, job, Vec::new(self.alloc))?;
        }
        Ok(())
    }
}
