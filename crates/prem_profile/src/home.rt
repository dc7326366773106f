// Where cycles are spent.
use prem_plant::TaskId;

/// Where a cycle is spent.
#[derive(Clone, Copy, PartialEq, Eq, Debug)]
pub enum Home {
    /// In idle time.
    Rest,
    /// In a switch to this task.
    Switch(TaskId),
    /// In the instruction at this address.
    At(u32),
}
