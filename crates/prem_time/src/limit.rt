// The cycle by which all jobs of all tasks have ended.
ghost use Rattle.std.specs.Prelude.{◌≡◌, ◌≤◌, ◌-◌, ◌*◌, ◌^◌, All, length};
ghost use Rattle.prem_sound.specs.Script.Scripts.{last_release};
ghost use Rattle.prem_resp.specs.Busy.Busy.{IsLoad};
ghost use Rattle.prem_time.specs.Told.{HasJobs, limit_told, work_told};

use prem_image::TaskRecord;
use prem_resp::busy::Load;

/// The cycle in which the last job of a task is released.
fn release(task: &TaskRecord) -> u64
    requires jobs { HasJobs task.now }
    ensures last { result ≡ (task.now.jobs - 1) * task.now.period }
    ensures small { result ≤ 2 ^ 48 }
{
    u64::from(task.jobs.saturating_sub(1)) * u64::from(task.period)
}

/// That of the last job of all tasks.
fn last_release(tasks: &[TaskRecord]) -> u64
    requires jobs { All HasJobs tasks.now }
    ensures last { result ≡ last_release tasks.now }
    ensures small { result ≤ 2 ^ 48 }
{
    let mut last = 0u64;
    for task in tasks {
        last = last.max(release(task));
    }
    last
}

/// What the jobs of a task take at most.
fn work_of(task: &TaskRecord, load: &Load) -> u64
    requires jobs { HasJobs task.now }
    requires load { IsLoad load.now }
    ensures work { result ≡ task.now.jobs * load.now.cost }
    ensures small { result ≤ 2 ^ 56 }
{
    u64::from(task.jobs) * load.cost
}

/// What those of all tasks do.
fn all_work(tasks: &[TaskRecord], loads: &[Load]) -> u64
    requires count { length tasks.now ≤ 16 }
    requires jobs { All HasJobs tasks.now }
    requires loads { All IsLoad loads.now }
    requires long { length loads.now ≡ length tasks.now }
    ensures work { result ≡ work_told tasks.now loads.now }
    ensures small { result ≤ 2 ^ 60 }
{
    let mut work = 0u64;
    for i in 0..tasks.len() {
        work += work_of(&tasks[i], &loads[i]);
    }
    work
}

/// The last release of a job, and behind it what the jobs of all tasks take at most.
pub(crate) fn limit_of(tasks: &[TaskRecord], loads: &[Load]) -> u64
    requires count { length tasks.now ≤ 16 }
    requires jobs { All HasJobs tasks.now }
    requires loads { All IsLoad loads.now }
    requires long { length loads.now ≡ length tasks.now }
    ensures { result ≡ limit_told tasks.now loads.now }
{
    last_release(tasks) + all_work(tasks, loads)
}
