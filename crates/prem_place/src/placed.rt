//! Tasks at their places: programs with the places of their parts, their plans and all their code.
use prem_bounds::CodeTable;
use prem_foot::TaskPlaces;
use prem_list::Sequence;
use prem_plant::Label;
use prem_split::IntervalPlan;
use prem_tree::resolve::Resolved;

/// A task with the places of its parts, the plans of its marked functions, and all its code.
#[derive(Drop)]
pub struct PlacedTask<'a, 'p> {
    pub name: &'a Label,
    /// The cycles from one release of a job to the next.
    pub period: u32,
    /// How many jobs are released.
    pub jobs: u32,
    /// Its program with names resolved.
    pub program: Resolved<'p>,
    /// The turns of its counting loops, in the order of the text.
    pub turns: Vec<u32>,
    pub places: TaskPlaces,
    pub plans: Sequence<IntervalPlan>,
    pub table: CodeTable,
}
