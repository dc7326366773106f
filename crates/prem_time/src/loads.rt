// What the tasks of a compiled set ask of the core.
ghost use Rattle.std.specs.Prelude.{◌≡◌, IfOk, length, map};
ghost use Rattle.prem_wcet.specs.TimedOf.{times_in};
ghost use Rattle.prem_time.specs.Told.{loads_told};

use prem_image::TaskRecord;
use prem_resp::busy::Load;
use prem_wcet::TaskTimes;
use std::alloc::{AllocError, Global};

/// What each task asks of the core: its period, what a job takes at most, and its longest stretch or interval with the switch before it.
pub(crate) fn loads_of(
    alloc: Global,
    tasks: &[TaskRecord],
    times: &[TaskTimes],
) -> Result<Vec<Load>, AllocError>
    requires { length times.now ≡ length tasks.now }
    ensures { IfOk result (λ loads. loads.items ≡ loads_told tasks.now (map times_in times.now)) }
{
    let mut loads = Vec::new(alloc);
    for i in 0..tasks.len() {
        loads.push(Load {
            period: tasks[i].period,
            cost: times[i].wcet,
            longest: times[i].longest,
        })?;
    }
    Ok(loads)
}
