// What the tasks of a compiled set ask of the core, and their busy periods.
ghost use Rattle.std.specs.Prelude.{◌≡◌, ◌≤◌, All, IfOk, length};
ghost use Rattle.prem_resp.specs.Busy.Busy.{IsLoad};
ghost use Rattle.prem_resp.specs.Fits.{found_in};
ghost use Rattle.prem_resp.specs.Told.{loads_told};

use crate::busy::{Busy, Load, busy_length};
use prem_image::TaskRecord;
use std::alloc::{AllocError, Global};

/// What each task asks of the core: its period, what a job takes at most, and its longest interval with the switch before it.
pub(crate) fn loads_of(
    alloc: Global,
    tasks: &[TaskRecord],
    jobs: &[u64],
    longest: &[u64],
) -> Result<Vec<Load>, AllocError>
    requires jobs { length jobs.now ≡ length tasks.now }
    requires longest { length longest.now ≡ length tasks.now }
    ensures { IfOk result (λ loads. loads.items ≡ loads_told tasks.now jobs.now longest.now) }
{
    let mut loads = Vec::new(alloc);
    for i in 0..tasks.len() {
        loads.push(Load {
            period: tasks[i].period,
            cost: jobs[i],
            longest: longest[i],
        })?;
    }
    Ok(loads)
}

/// What is found of the busy period of each task.
pub fn busy_periods(alloc: Global, loads: &[Load]) -> Result<Vec<Busy>, AllocError>
    requires loads { All IsLoad loads.now }
    requires count { length loads.now ≤ 16 }
    ensures { IfOk result (λ found. found.items ≡ found_in loads.now) }
{
    let mut found = Vec::new(alloc);
    for i in 0..loads.len() {
        found.push(busy_length(loads, i))?;
    }
    Ok(found)
}
