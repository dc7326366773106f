// The cycle by which all jobs of all tasks have ended.
ghost use Rattle.std.specs.Prelude.{◌≡◌, ◌≤◌, ◌-◌, ◌*◌, ◌^◌, length};
ghost use Rattle.std.specs.List.{AllByRecursion};
ghost use Rattle.prem_layout.specs.Bounds.{limit_of};
ghost use Rattle.prem_place.specs.Totals.Limits.{HasJobs, IsBound, jobs_with};

use crate::placed::PlacedTask;

/// The release of a task's last job.
#[tactic(auto, using(crate::proofs::TotalsLemmas::Products::release_small))]
fn last_release(jobs: u32, period: u32) -> u64
    requires { jobs ≤ 65535 }
    ensures last { result ≡ (jobs - 1) * period }
    ensures small { result ≤ 2 ^ 48 }
{
    u64::from(jobs.saturating_sub(1)) * u64::from(period)
}

/// The cycles of all jobs of a task.
#[tactic(auto, using(crate::proofs::TotalsLemmas::Products::work_small))]
fn work_of(jobs: u32, bound: u64) -> u64
    requires jobs { jobs ≤ 65535 }
    requires bound { bound ≤ 2 ^ 40 }
    ensures work { result ≡ jobs * bound }
    ensures small { result ≤ 2 ^ 56 }
{
    u64::from(jobs) * bound
}

/// The cycle by which all jobs of all tasks have ended, where a job of each takes at most so many cycles: the last release
/// of a job, and behind it all cycles of all jobs.
pub fn limit(tasks: &[PlacedTask], bounds: &[u64]) -> u64
    requires count { length tasks.now ≤ 16 }
    requires jobs { AllByRecursion HasJobs tasks.now }
    requires long { length bounds.now ≡ length tasks.now }
    requires small { AllByRecursion IsBound bounds.now }
    ensures { result ≡ limit_of (jobs_with tasks.now bounds.now) }
{
    let mut last = 0u64;
    let mut work = 0u64;
    for n in 0..tasks.len() {
        let jobs = tasks[n].jobs;
        let period = tasks[n].period;
        last = last.max(last_release(jobs, period));
        work += work_of(jobs, bounds[n]);
    }
    last + work
}
