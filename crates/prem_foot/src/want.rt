// The ranges of a marked function, by the parts of a set.
use prem_list::Sequence;
use prem_plant::{FnId, TaskId};

/// A marked function, and the ranges of bytes that its lines are to have room with.
#[derive(Drop)]
pub struct Want {
    pub task: TaskId,
    pub function: FnId,
    /// The number of a part, and the first byte and the end within it.
    pub ranges: Sequence<(u32, u32, u32)>,
}
