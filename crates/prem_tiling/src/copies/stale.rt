// Stale locals in a turn of a loop.
ghost use Rattle.std.specs.Prelude.{◌≡◌, drop, length, map, OnOk, IfOk};
ghost use Rattle.std.specs.Option.{option_map};
ghost use Rattle.prem_syntax.specs.Name.{name_bytes};
ghost use Rattle.prem_syntax.specs.SyntaxOf.{expression_of};
ghost use Rattle.prem_tiling.specs.Copies.StaleOf.{walk_of};
ghost use Rattle.prem_tiling.specs.Copies.Walk.{reading, reading_option, reading_all, lowered, lowered_plain, lowered_target, lowered_all, undone, unflagged, behind_arms};

use crate::copies::flags::{
    clear_flag, first_line, flagged, read_by, read_by_all, read_by_option, set_flag,
};
use prem_names::Index;
use prem_syntax::{Expr, Name};
use std::alloc::{AllocError, Global};

/// Where a walk through a turn has come to: the locals that the loop's body assigns and this turn hasn't surely assigned so far,
/// and the line of the first read of such a one.
#[derive(Drop)]
pub struct Stale {
    /// For each local, whether it is stale.
    pub flags: Vec<bool>,
    /// The locals that are so no longer, in the order in which they were assigned.
    pub trail: Vec<usize>,
    pub line: Option<u32>,
}

impl Stale {
    /// Notes the first read of a stale local.
    pub fn read(&mut self, names: &Index, e: &Expr)
        ensures { walk_of self.new ≡ reading names.now (walk_of self.old) (expression_of e.now) }
    {
        let line = read_by(names, &self.flags, e);
        self.line = first_line(self.line, line);
    }

    pub fn read_option(&mut self, names: &Index, e: &Option<Expr>)
        ensures { walk_of self.new ≡ reading_option names.now (walk_of self.old) (option_map expression_of e.now) }
    {
        let line = read_by_option(names, &self.flags, e);
        self.line = first_line(self.line, line);
    }

    pub fn read_all(&mut self, names: &Index, es: &[Expr])
        ensures { walk_of self.new ≡ reading_all names.now (walk_of self.old) (map expression_of es.now) }
    {
        let line = read_by_all(names, &self.flags, es);
        self.line = first_line(self.line, line);
    }

    /// A local is assigned.
    pub fn settle(&mut self, number: Option<usize>) -> Result<(), AllocError>
        ensures { OnOk result (walk_of self.new ≡ lowered number (walk_of self.old)) }
    {
        if let Some(k) = number {
            if flagged(&self.flags, Some(k)) {
                clear_flag(&mut self.flags, k);
                self.trail.push(k)?;
            }
        }
        Ok(())
    }

    pub fn settle_plain(
        &mut self,
        names: &Index,
        name: &Name,
        index: &Option<Expr>,
    ) -> Result<(), AllocError>
        ensures { OnOk result (walk_of self.new ≡ lowered_plain names.now (walk_of self.old) (name_bytes name.now) (option_map expression_of index.now)) }
    {
        match index {
            Some(_) => Ok(()),
            None => self.settle(names.find(name.bytes())),
        }
    }

    pub fn settle_target(&mut self, names: &Index, target: &Option<Name>) -> Result<(), AllocError>
        ensures { OnOk result (walk_of self.new ≡ lowered_target names.now (walk_of self.old) (option_map name_bytes target.now)) }
    {
        match target {
            Some(name) => self.settle(names.find(name.bytes())),
            None => Ok(()),
        }
    }

    /// All of these locals are assigned.
    fn settle_all(&mut self, numbers: &[usize]) -> Result<(), AllocError>
        ensures { OnOk result (walk_of self.new ≡ lowered_all numbers.now (walk_of self.old)) }
    {
        'numbers: for k in numbers {
            self.settle(Some(*k))?;
        }
        Ok(())
    }

    /// Takes back what has been assigned since there were so many, and gives it.
    pub fn take_back(&mut self, alloc: Global, mark: usize) -> Result<Vec<usize>, AllocError>
        ensures taken { IfOk result (λ taken. taken.items ≡ drop mark (walk_of self.old).trail) }
        ensures back { OnOk result (walk_of self.new ≡ undone mark (walk_of self.old)) }
    {
        let taken = self.since(mark).to_vec(alloc)?;
        self.undo(mark);
        Ok(taken)
    }

    /// Behind two arms of which one is reached: what both assign is assigned. The second one has been walked from where the first one
    /// was, which assigned the first locals.
    pub fn settle_both(
        &mut self,
        alloc: Global,
        mark: usize,
        first: &[usize],
    ) -> Result<(), AllocError>
        ensures { OnOk result (walk_of self.new ≡ behind_arms mark first.now (walk_of self.old)) }
    {
        let both = unflagged(alloc, &self.flags, first)?;
        self.undo(mark);
        self.settle_all(&both)
    }

    /// How many locals have been assigned.
    pub fn mark(&self) -> usize
        ensures { result ≡ length (walk_of self.now).trail }
    {
        self.trail.as_slice().len()
    }

    /// The locals that have been assigned since there were so many.
    fn since(&self, mark: usize) -> &[usize]
        ensures { result.now ≡ drop mark (walk_of self.now).trail }
    {
        let all = self.trail.as_slice();
        if mark <= all.len() { &all[mark..] } else { &[] }
    }

    /// Takes back what has been assigned since there were so many.
    pub fn undo(&mut self, mark: usize)
        ensures { walk_of self.new ≡ undone mark (walk_of self.old) }
    {
        'trail: while self.trail.len() > mark {
            if let Some(k) = self.trail.pop() {
                set_flag(&mut self.flags, Some(k));
            }
        }
    }
}

/// The locals without a flag.
fn unflagged(alloc: Global, flags: &[bool], numbers: &[usize]) -> Result<Vec<usize>, AllocError>
    ensures { IfOk result (λ kept. kept.items ≡ unflagged flags.now numbers.now) }
{
    let mut kept = Vec::new(alloc);
    'numbers: for k in numbers {
        if !flagged(flags, Some(*k)) {
            kept.push(*k)?;
        }
    }
    Ok(kept)
}
