// Periodic tasks, the jobs of each that have ended, and what the core does next.
ghost use Rattle.std.specs.Prelude.{◌≡◌, ℕ, ◌≤◌, IfOk, All, length};
ghost use Rattle.prem_sched.specs.Schedule.{Before, IsChoice, IsDone, IsReady, IsTask, choice, earlier, is_ready, job_ended, next_ready, starts_of, task_at};

use prem_plant::TaskId;
use std::alloc::{AllocError, Global};
use std::marker::Model;

/// What the core does at a scheduling point.
#[derive(Clone, Copy, Debug, PartialEq, Eq)]
pub enum Choice {
    /// It runs this task.
    Run(TaskId),
    /// It idles up to this cycle, which is the next scheduling point.
    Idle { until: u64 },
    /// All jobs of all tasks have ended.
    Finished,
}

/// A task's jobs. Job number k, from 0, is released at cycle `k * period`.
#[derive(Clone, Copy)]
struct TaskJobs {
    /// The cycles from one release to the next.
    period: u32,
    /// How many jobs the task has.
    jobs: u32,
    /// How many of them have ended.
    ended: u32,
}

/// The tasks of a set in order of priority, the highest one first.
#[derive(Drop)]
pub struct Sched {
    tasks: Vec<TaskJobs>,
}

impl Model for Sched {
    ghost use Rattle.std.specs.Prelude.{List};
    ghost use Rattle.prem_sched.specs.declared.sched.TaskJobs.{TaskJobs};
    ghost use Rattle.prem_sched.specs.Schedule.{IsSet};

    ghost Value = { List TaskJobs };

    ghost view = { λ s. s.tasks.items };

    ghost invariant = { λ s. IsSet s.tasks.items };
}

impl TaskJobs {
    ghost use Rattle.std.specs.Prelude.{◌≡◌, ◌<◌, ◌≤◌, false};
    ghost use Rattle.prem_sched.specs.Schedule.{becomes_ready, is_ready, next_release, with_job};

    /// Whether fewer jobs have ended than are released.
    fn is_ready(&self, now: u64) -> bool
        requires { 1 ≤ self.now.period }
        ensures { result ≡ is_ready now self.now }
    {
        self.ended < self.jobs && u64::from(self.ended) <= now / u64::from(self.period)
    }

    /// The first release to come.
    fn next_release(&self, now: u64) -> Option<u64>
        requires period { 1 ≤ self.now.period }
        requires waits { is_ready now self.now ≡ false }
        ensures { result ≡ next_release now self.now }
    {
        let period = u64::from(self.period);
        (self.ended < self.jobs).then(|| (now / period + 1) * period)
    }

    /// The first cycle behind this one in which it becomes ready, where it isn't.
    fn next_ready(&self, now: u64) -> Option<u64>
        requires { 1 ≤ self.now.period }
        ensures { result ≡ becomes_ready now self.now }
    {
        if self.is_ready(now) {
            return None;
        }
        self.next_release(now)
    }

    /// One more job has ended.
    fn end_job(&mut self)
        requires { self.old.ended < self.old.jobs }
        ensures { self.new ≡ with_job self.old }
    {
        self.ended += 1;
    }
}

impl Sched {
    /// The set of tasks of these periods, in cycles, and numbers of jobs, of which none has ended.
    ///
    /// It fails only for want of memory.
    pub fn new(alloc: Global, tasks: &[(u32, u32)]) -> Result<Sched, AllocError>
        requires positive { All IsTask tasks.now }
        requires count { length tasks.now ≤ 16 }
        ensures { IfOk result (λ sched. sched ≡ starts_of tasks.now) }
    {
        let mut started = Vec::with_capacity(alloc, tasks.len())?;
        for &(period, jobs) in tasks {
            started.push(TaskJobs {
                period,
                jobs,
                ended: 0,
            })?;
        }
        Ok(Sched { tasks: started })
    }

    /// What the core does where it may choose in this cycle: it runs the first ready task. Where none is ready, it
    /// idles up to the next release. Where no job is left, it has finished.
    pub fn choose(&self, now: u64) -> Choice
        ensures choice { result ≡ choice now self.now }
        ensures meaning { IsChoice now self.now result }
        ensures finished { All IsDone self.now → result ≡ Choice.Finished }
    {
        let mut least = None;
        for (k, task) in self.tasks.iter().enumerate() {
            if task.is_ready(now) {
                return Choice::Run(k as TaskId);
            }
            least = earlier(least, task.next_release(now));
        }
        match least {
            Some(until) => Choice::Idle { until },
            None => Choice::Finished,
        }
    }

    /// Whether fewer jobs of a task have ended than are released. A task that isn't in the set isn't ready.
    pub fn is_ready(&self, t: TaskId, now: u64) -> bool
        ensures { result ≡ is_ready now (task_at self.now t) }
    {
        match self.tasks.get(usize::from(t)) {
            Some(task) => task.is_ready(now),
            None => false,
        }
    }

    /// How many jobs of a task have ended: the number of the job that is under way or comes next.
    pub fn ended(&self, t: TaskId) -> u32
        ensures { result ≡ (task_at self.now t).ended }
    {
        match self.tasks.get(usize::from(t)) {
            Some(task) => task.ended,
            None => 0,
        }
    }

    /// The first cycle behind this one in which a task becomes ready that isn't, while no job ends. Up to it each task is
    /// ready or not as it is now.
    pub fn next_ready(&self, now: u64) -> Option<u64>
        ensures first { result ≡ next_ready now self.now }
        ensures later { Before now result }
        ensures kept { (k v : ℕ) → now ≤ v → Before v result → is_ready v (task_at self.now k) ≡ is_ready now (task_at self.now k) }
    {
        let mut least = None;
        'tasks: for task in &self.tasks {
            least = earlier(least, task.next_ready(now));
        }
        least
    }

    /// A job of a task that is ready now has ended.
    pub fn end_job(&mut self, t: TaskId, now: u64)
        requires { IsReady now self.old t }
        ensures { self.new ≡ job_ended t self.old }
    {
        self.tasks[usize::from(t)].end_job();
    }
}

/// The earlier of two times.
fn earlier(first: Option<u64>, second: Option<u64>) -> Option<u64>
    ensures { result ≡ earlier first second }
{
    match (first, second) {
        (Some(u), Some(v)) => Some(u.min(v)),
        (None, other) | (other, None) => other,
    }
}
