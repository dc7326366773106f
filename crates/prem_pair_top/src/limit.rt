// The cycle by which both cores have finished.
ghost use Rattle.std.specs.Prelude.{◌≡◌, ◌≤◌, ◌+◌, ◌-◌, ◌*◌, ◌^◌, length, max};
ghost use Rattle.prem_sound.specs.Script.Scripts.{last_release};
ghost use Rattle.prem_pair.specs.Laws.PairSound.{all_costs, cost_of_request, last_request};
ghost use Rattle.prem_compile.specs.CompiledOf.{compiled_of};
ghost use Rattle.prem_pair_top.specs.Running.{CountsDue, cycles_in, due_in, limit_in};

use prem_compile::Compiled;
use prem_gate::Request;
use prem_image::{DeviceRecord, TaskRecord};

/// The last cycle of any machine.
const LAST_CYCLE: u64 = 1 << 61;

/// The cycle in which the last job of a task is released.
fn release(task: &TaskRecord) -> u64
    ensures { result ≡ (task.now.jobs - 1) * task.now.period }
{
    u64::from(task.jobs.saturating_sub(1)) * u64::from(task.period)
}

/// That of the last job of all tasks.
fn last_release(tasks: &[TaskRecord]) -> u64
    ensures { result ≡ last_release tasks.now }
{
    let mut last = 0u64;
    'tasks: for task in tasks {
        last = last.max(release(task));
    }
    last
}

/// The greatest cycle of a request.
fn last_request(requests: &[Request]) -> u64
    ensures { result ≡ last_request requests.now }
{
    let mut last = 0u64;
    'requests: for request in requests {
        last = last.max(request.cycle);
    }
    last
}

/// The cycles of a request's transfer.
fn cost_of(devices: &[DeviceRecord], request: &Request) -> u32
    ensures { result ≡ cost_of_request devices.now request.now }
{
    match devices.get(usize::from(request.device)) {
        Some(device) => device.device.cost,
        None => 0,
    }
}

/// Those of the transfers of all requests.
fn all_costs(devices: &[DeviceRecord], requests: &[Request]) -> u128
    ensures costs { result ≡ all_costs devices.now requests.now }
    ensures few { result ≤ length requests.now * 2 ^ 32 }
{
    let mut costs = 0u128;
    'requests: for request in requests {
        costs += u128::from(cost_of(devices, request));
    }
    costs
}

/// What the jobs of all tasks of a set are due: their numbers times their bounds, which its limit counts from the last release on.
fn due(compiled: &Compiled) -> u64
    requires { CountsDue (compiled_of compiled.now) }
    ensures { result ≡ due_in (compiled_of compiled.now) }
{
    compiled.limit - last_release(compiled.image.tasks.items())
}

/// The greatest last release of both sets, the jobs of both times their bounds, and the greatest cycle and the costs of all requests.
fn limit_in(one: &Compiled, two: &Compiled, requests: &[Request]) -> u128
    requires due { CountsDue (compiled_of one.now) }
    requires other_due { CountsDue (compiled_of two.now) }
    ensures { result ≡ limit_in (compiled_of one.now) (compiled_of two.now) requests.now }
{
    let last = last_release(one.image.tasks.items()).max(last_release(two.image.tasks.items()));
    let due = u128::from(due(one)) + u128::from(due(two));
    let asked = u128::from(last_request(requests));
    let costs = all_costs(one.image.devices.items(), requests);
    u128::from(last) + due + (asked + costs)
}

/// The cycle up to which a run goes: the one that the words tell, else the limit of both sets.
pub(crate) fn cycles_in(
    cycles: Option<u64>,
    one: &Compiled,
    two: &Compiled,
    requests: &[Request],
) -> u64
    requires due { CountsDue (compiled_of one.now) }
    requires other_due { CountsDue (compiled_of two.now) }
    ensures cycles { result ≡ cycles_in cycles (limit_in (compiled_of one.now) (compiled_of two.now) requests.now) }
    ensures within { result ≤ 2 ^ 61 }
{
    match cycles {
        Some(cycles) => cycles.min(LAST_CYCLE),
        None => limit_in(one, two, requests).min(u128::from(LAST_CYCLE)) as u64,
    }
}
