// The state of a run of a program, and what single statements do to it.
ghost use Rattle.std.specs.Prelude.{◌≡◌, ℕ, List, map, slice_set, drop, is_some, OnOk};
ghost use Rattle.std.specs.Option.{option_map};
ghost use Rattle.prem_syntax.specs.Resolved.{Term};
ghost use Rattle.prem_syntax.specs.Statements.{stored, with_local, store, take_input, value, values, holds, int_local, loop_test, loop_step, declare, result_of};
ghost use Rattle.prem_syntax.specs.Source.{everywhere};
ghost use Rattle.prem_tree.specs.Resolve.ResolvedOf.{term_of};
ghost use Rattle.prem_tree.specs.State.Interpreter.{state_of, Gives, Yields};
ghost use Rattle.prem_tree.specs.State.Single.{do_set_local, do_set_scalar, do_set_element, do_output, noted_in};

use crate::resolve::Term;
use crate::state::eval::{Line, eval};
use crate::state::fail::SourceFail;
use prem_list::Sequence;
use prem_syntax::{Function, Ty};
use prem_word::{FnId, signed};
use std::alloc::{AllocError, Global};

/// What a run works on, but for the locals of the function at work.
#[derive(Drop)]
pub struct Interpreter<'a> {
    /// The words of each global, in the order of the text.
    pub globals: Vec<Vec<u32>>,
    pub inputs: &'a [u32],
    /// The number of inputs taken.
    pub used: usize,
    pub outputs: Sequence<u32>,
    /// The marked functions called, by number.
    pub marks: Sequence<FnId>,
}

/// The word that an element of a type holds after a store: the low bits that fit, promoted.
pub fn stored(ty: Ty, w: u32) -> u32
    ensures { result ≡ stored ty w }
{
    match ty {
        Ty::Short => i32::from(((w % 65536) as u16).cast_signed()).cast_unsigned(),
        Ty::Ushort => w % 65536,
        Ty::Schar => i32::from(((w % 256) as u8).cast_signed()).cast_unsigned(),
        Ty::Uchar => w % 256,
        _ => w,
    }
}

/// Sets a local; a number without a local changes nothing.
pub fn set_local(locals: &mut Vec<u32>, number: usize, w: u32)
    ensures { locals.new.items ≡ slice_set locals.old.items number w }
{
    if number < locals.len() {
        locals[number] = w;
    }
}

impl Interpreter<'_> {
    /// The word of a term.
    pub fn value(&self, locals: &[u32], term: &Term) -> Result<u32, Line>
        ensures { result ≡ value everywhere (state_of self.now locals.now) (term_of term.now) }
    {
        eval(&self.globals, locals, term)
    }

    /// Whether a condition isn't 0.
    pub fn holds(&self, locals: &[u32], condition: &Term) -> Result<bool, Line>
        ensures { result ≡ holds everywhere (term_of condition.now) (state_of self.now locals.now) }
    {
        Ok(self.value(locals, condition)? != 0)
    }

    /// A store to an element, which has to be there.
    fn store(&mut self, line: Line, g: usize, ty: Ty, j: usize, w: u32) -> Result<(), Line>
        ensures { (ls : List ℕ) → Yields result (store everywhere line ty g j w (state_of self.old ls)) (λ _. state_of self.new ls) }
    {
        let Some(words) = self.globals.get_mut(g) else {
            return Err(line);
        };
        let Some(word) = words.get_mut(j) else {
            return Err(line);
        };
        *word = stored(ty, w);
        Ok(())
    }

    /// The next input; 0 behind the last one.
    fn next_input(&mut self) -> u32
        ensures { (number : ℕ) (ls : List ℕ) → take_input number (drop self.old.used self.old.inputs.now) (state_of self.old ls) ≡ with_local number result (state_of self.new ls) }
    {
        match self.inputs.get(self.used) {
            Some(w) => {
                self.used += 1;
                *w
            }
            None => 0,
        }
    }

    /// `local = in();`
    pub fn take_input(&mut self, locals: &mut Vec<u32>, number: usize)
        ensures { state_of self.new locals.new.items ≡ take_input number (drop self.old.used self.old.inputs.now) (state_of self.old locals.old.items) }
    {
        let w = self.next_input();
        set_local(locals, number, w);
    }

    /// `local = term;`
    pub fn set_local(
        &self,
        locals: &mut Vec<u32>,
        number: usize,
        term: &Term,
    ) -> Result<(), SourceFail>
        ensures { Gives result (do_set_local number (term_of term.now) (state_of self.now locals.old.items)) (λ _. state_of self.now locals.new.items) }
    {
        let w = self.value(locals, term)?;
        set_local(locals, number, w);
        Ok(())
    }

    /// `global = term;`
    pub fn set_scalar(
        &mut self,
        locals: &[u32],
        line: Line,
        g: usize,
        ty: Ty,
        term: &Term,
    ) -> Result<(), SourceFail>
        ensures { Gives result (do_set_scalar line g ty (term_of term.now) (state_of self.old locals.now)) (λ _. state_of self.new locals.now) }
    {
        let w = self.value(locals, term)?;
        self.store(line, g, ty, 0, w)?;
        Ok(())
    }

    /// `global[index] = term;`: the value comes first.
    pub fn set_element(
        &mut self,
        locals: &[u32],
        line: Line,
        g: usize,
        ty: Ty,
        index: &Term,
        term: &Term,
    ) -> Result<(), SourceFail>
        ensures { Gives result (do_set_element line g ty (term_of index.now) (term_of term.now) (state_of self.old locals.now)) (λ _. state_of self.new locals.now) }
    {
        let word = self.value(locals, term)?;
        let j = self.value(locals, index)?;
        self.store(line, g, ty, j as usize, word)?;
        Ok(())
    }

    /// `out(term);`
    pub fn output(&mut self, locals: &[u32], term: &Term) -> Result<(), SourceFail>
        ensures { Gives result (do_output (term_of term.now) (state_of self.old locals.now)) (λ _. state_of self.new locals.now) }
    {
        let w = self.value(locals, term)?;
        self.outputs.push(w)?;
        Ok(())
    }

    /// Notes a call of a function, where the function is marked.
    pub fn note(&mut self, function: &Function, number: FnId) -> Result<(), AllocError>
        ensures { OnOk result ((ls : List ℕ) → state_of self.new ls ≡ noted_in (is_some function.now.mark) number (state_of self.old ls)) }
    {
        if function.mark.is_some() {
            self.marks.push(number)?;
        }
        Ok(())
    }

    /// The values of terms, from the left.
    pub fn values(
        &self,
        alloc: Global,
        locals: &[u32],
        terms: &[Term],
    ) -> Result<Vec<u32>, SourceFail>
        ensures { Gives result (values everywhere (state_of self.now locals.now) (map term_of terms.now)) (λ ws. ws.items) }
    {
        let mut words = Vec::new(alloc);
        for term in terms {
            let w = self.value(locals, term)?;
            words.push(w)?;
        }
        Ok(words)
    }

    /// Adds locals, each with the value of its initialiser, which sees those before it.
    pub fn declare(&self, locals: &mut Vec<u32>, terms: &[Term]) -> Result<(), SourceFail>
        ensures { Gives result (declare everywhere (map term_of terms.now) (state_of self.now locals.old.items)) (λ _. state_of self.now locals.new.items) }
    {
        for term in terms {
            let w = self.value(locals, term)?;
            locals.push(w)?;
        }
        Ok(())
    }

    /// The word of a function's result; 0 where there is none.
    pub fn result_of(&self, locals: &[u32], result_term: &Option<Term>) -> Result<u32, Line>
        ensures { result ≡ result_of everywhere (option_map term_of result_term.now) (state_of self.now locals.now) }
    {
        match result_term {
            Some(term) => self.value(locals, term),
            None => Ok(0),
        }
    }
}

/// What a counting loop tests and how it goes on.
#[derive(Clone, Copy)]
pub struct Counter<'a> {
    pub line: Line,
    /// The local that counts.
    pub number: usize,
    pub closed: bool,
    pub high: &'a Term,
    pub step: u32,
}

impl Counter<'_> {
    fn count(&self, interpreter: &Interpreter, locals: &[u32]) -> i32
        ensures { result ≡ int_local self.now.number (state_of interpreter.now locals.now) }
    {
        signed(locals.get(self.number).copied().unwrap_or(0))
    }

    /// Whether the local is below the bound, or at it where the loop is closed.
    pub fn holds(&self, interpreter: &Interpreter, locals: &[u32]) -> Result<bool, Line>
        ensures { result ≡ loop_test everywhere self.now.number self.now.closed (term_of self.now.high.now) (state_of interpreter.now locals.now) }
    {
        let high = signed(interpreter.value(locals, self.high)?);
        let count = self.count(interpreter, locals);
        if self.closed {
            Ok(count <= high)
        } else {
            Ok(count < high)
        }
    }

    /// Adds the step to the local; past 2147483647 the loop is wrong.
    pub fn advance(&self, interpreter: &Interpreter, locals: &mut Vec<u32>) -> Result<(), Line>
        ensures { Yields result (loop_step self.now.line self.now.number self.now.step (state_of interpreter.now locals.old.items)) (λ _. state_of interpreter.now locals.new.items) }
    {
        let next = i64::from(self.count(interpreter, locals)) + i64::from(self.step);
        if next > 2147483647 {
            return Err(self.line);
        }
        set_local(locals, self.number, (next as i32).cast_unsigned());
        Ok(())
    }
}
