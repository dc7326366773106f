// The pseudo-random numbers that a sample is made of.
use prem_list::Sequence;
use std::alloc::{AllocError, Global};

/// What pseudo-random numbers come from: a state, which each draw changes.
#[derive(Drop)]
pub struct Draws {
    pub state: u64,
}

impl Draws {
    ghost use Rattle.std.specs.Prelude.{◌≡◌, ◌≤◌, ◌<◌, OnOk};
    ghost use Rattle.std.specs.Prelude.{IfOk};
    ghost use Rattle.prem_list.specs.Sequence.{items_of};
    ghost use Rattle.prem_running.specs.Sample.Draws.{after, drawn, next, numbers};

    /// The next number below `below`.
    #[tactic(auto, using(crate::proofs::SampleLemmas::Numbers::next_is))]
    pub fn draw(&mut self, below: u32) -> u16
        requires some { 1 ≤ below }
        requires few { below ≤ 65536 }
        ensures number { result ≡ drawn below self.new.state }
        ensures below { result < below }
        ensures state { self.new.state ≡ next self.old.state }
    {
        let state = self.state % 4_294_967_296;
        self.state = (1_664_525 * state + 1_013_904_223) % 4_294_967_296;
        (self.state / 65_536 % u64::from(below)) as u16
    }

    /// The next numbers below `below`, so many of them. It fails only for want of memory.
    pub fn words(
        &mut self,
        alloc: Global,
        below: u32,
        count: usize,
    ) -> Result<Sequence<u32>, AllocError>
        requires some { 1 ≤ below }
        requires few { below ≤ 65536 }
        ensures words { IfOk result (λ words. items_of words ≡ numbers below count self.old.state) }
        ensures state { OnOk result (self.new.state ≡ after count self.old.state) }
    {
        let mut words = Sequence::new(alloc);
        'draws: for _ in 0..count {
            words.push(u32::from(self.draw(below)))?;
        }
        Ok(words)
    }
}
