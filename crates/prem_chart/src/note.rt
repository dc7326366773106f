// What is noted of a run beside its facts.

use prem_gate::Window;
use prem_plant::TaskId;

/// What the machine did in a cycle, beside what its facts tell.
#[derive(Clone, Copy, PartialEq, Eq, Debug)]
pub enum Note {
    /// The execution phase of a task began, and with it this window for transfers.
    Phase { task: TaskId, window: Window },
    /// Idle time began in the cycle before this window for transfers.
    Rest { window: Window },
    /// An instruction of a task missed the cache in this cycle.
    Miss { task: TaskId, cycle: u64 },
}
