// The least length of a busy period.
ghost use Rattle.std.specs.Prelude.{◌≡◌, ◌+◌, ◌*◌, ◌≤◌, ◌<◌, ◌^◌, All, length};
ghost use Rattle.prem_resp.specs.Busy.Busy.{IsLoad, blocking, demand, earliest, earliest_in, greatest_interval, interference, load_at, releases_in, utilisation};
ghost use Rattle.prem_resp.specs.Busy.Found.{IsEarly, IsFound};

use crate::busy::load::Load;

/// What is found of a busy period.
#[derive(Clone, Copy, Debug, PartialEq, Eq)]
pub enum Busy {
    /// It lasts so many cycles, at most a period.
    Within { length: u64 },
    /// No number of cycles up to the period is enough.
    Past,
}

/// The greatest interval of some tasks.
fn greatest_interval(loads: &[Load]) -> u64
    requires loads { All IsLoad loads.now }
    ensures interval { result ≡ greatest_interval loads.now }
    ensures small { result ≤ 2 ^ 41 }
{
    let mut greatest = 0;
    for load in loads {
        greatest = load.longest.max(greatest);
    }
    greatest
}

/// The blocking of a task: the longest interval of those behind it, none of which it preempts, or 0.
pub fn blocking(loads: &[Load], i: usize) -> u64
    requires there { i < length loads.now }
    requires loads { All IsLoad loads.now }
    ensures interval { result ≡ blocking loads.now i }
    ensures small { result ≤ 2 ^ 41 }
{
    greatest_interval(&loads[i + 1..])
}

/// As many jobs a task of such a period releases at most in so many cycles.
fn releases_in(period: u32, cycles: u64) -> u64
    requires period { 1 ≤ period }
    requires small { cycles < 2 ^ 32 }
    ensures { result ≡ releases_in period cycles }
{
    (cycles + u64::from(period) - 1) / u64::from(period)
}

/// The work of the jobs that a task releases in so many cycles.
fn work_of(load: &Load, cycles: u64) -> u128
    requires load { IsLoad load.now }
    requires small { cycles < 2 ^ 32 }
    ensures work { result ≡ releases_in load.now.period cycles * load.now.cost }
    ensures small { result ≤ 2 ^ 73 }
{
    u128::from(releases_in(load.period, cycles)) * u128::from(load.cost)
}

/// The work of the jobs that some tasks release in so many cycles.
fn interference(loads: &[Load], cycles: u64) -> u128
    requires loads { All IsLoad loads.now }
    requires count { length loads.now ≤ 16 }
    requires small { cycles < 2 ^ 32 }
    ensures work { result ≡ interference cycles loads.now }
    ensures small { result ≤ 2 ^ 77 }
{
    let mut work = 0;
    for load in loads {
        work += work_of(load, cycles);
    }
    work
}

/// What the core may have to do in so many cycles.
fn demand(loads: &[Load], i: usize, cycles: u64) -> u128
    requires there { i < length loads.now }
    requires loads { All IsLoad loads.now }
    requires count { length loads.now ≤ 16 }
    requires small { cycles < 2 ^ 32 }
    ensures { result ≡ demand loads.now i cycles }
{
    u128::from(blocking(loads, i)) + u128::from(loads[i].cost) + interference(&loads[..i], cycles)
}

/// The part of the processor that some tasks need, in parts of 2^64.
fn utilisation(loads: &[Load]) -> u128
    requires loads { All IsLoad loads.now }
    requires count { length loads.now ≤ 16 }
    ensures used { result ≡ utilisation loads.now }
    ensures small { result ≤ 2 ^ 108 }
{
    let mut used = 0;
    for load in loads {
        used += (u128::from(load.cost) << 64) / u128::from(load.period);
    }
    used
}

/// So much work in the part of the processor that others leave, if they leave one.
fn earliest_in(work: u64, used: u128) -> Option<u128>
    ensures { result ≡ earliest_in work used }
{
    if used < 1 << 64 {
        Some((u128::from(work) << 64) / ((1 << 64) - used))
    } else {
        None
    }
}

/// A number of cycles that no busy period of the task falls short of, or none where the tasks before it leave no time.
///
/// Where the tasks up to this one need the whole processor or more, it is the task's period at least.
fn earliest(loads: &[Load], i: usize) -> Option<u128>
    requires there { i < length loads.now }
    requires loads { All IsLoad loads.now }
    requires count { length loads.now ≤ 16 }
    ensures { result ≡ earliest loads.now i }
{
    earliest_in(blocking(loads, i) + loads[i].cost, utilisation(&loads[..i]))
}

/// How long the busy period of a task and those before it lasts, where that is no longer than the task's period.
///
/// The search begins where those before the task leave as much time as it needs, so that it ends at once where too much is asked for.
/// Each step goes on with what the core has to do in the cycles so far, and passes over the cycles in between.
pub fn busy_length(loads: &[Load], i: usize) -> Busy
    requires there { i < length loads.now }
    requires loads { All IsLoad loads.now }
    requires count { length loads.now ≤ 16 }
    ensures { IsFound loads.now i result }
{
    let period = u128::from(loads[i].period);
    match earliest(loads, i) {
        None => Busy::Past,
        Some(first) => {
            if first > period {
                Busy::Past
            } else {
                search(loads, i, first as u64)
            }
        }
    }
}

/// The same, from a number of cycles on that has as much to do, and than which no busy period is shorter.
fn search(loads: &[Load], i: usize, first: u64) -> Busy
    requires there { i < length loads.now }
    requires loads { All IsLoad loads.now }
    requires count { length loads.now ≤ 16 }
    requires within { first ≤ (load_at loads.now i).period }
    requires grows { first ≤ demand loads.now i first }
    requires least { IsEarly loads.now i first }
    ensures { IsFound loads.now i result }
{
    let period = u128::from(loads[i].period);
    let mut cycles = first;
    loop {
        let next = demand(loads, i, cycles);
        if next > period {
            return Busy::Past;
        }
        if next as u64 == cycles {
            return Busy::Within { length: cycles };
        }
        cycles = next as u64;
    }
}
