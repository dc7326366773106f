// Tasks with their code.
use prem_asm::{Piece, Sequence};
use prem_plant::Label;
use prem_split::IntervalPlan;
use prem_tree::resolve::Resolved;

/// A task with the plans of its marked functions and the code of its functions, before its parts have places.
#[derive(Drop)]
pub struct CodedTask<'a, 'p> {
    pub name: &'a Label,
    /// The cycles from one release of a job to the next.
    pub period: u32,
    /// How many jobs are released.
    pub jobs: u32,
    /// Its program with names resolved.
    pub program: Resolved<'p>,
    /// The turns of its counting loops, in the order of the text.
    pub turns: Vec<u32>,
    /// The plans of its marked functions, in the order of the text.
    pub plans: Sequence<IntervalPlan>,
    /// The bytes of its stack.
    pub stack: u32,
    /// The pieces of each function by number.
    pub code: Sequence<Sequence<Piece>>,
}
