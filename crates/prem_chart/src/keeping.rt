// Whether the requests of a run keep the distances that words tell of their devices.
ghost use Rattle.std.specs.Prelude.{◌≡◌, None, option_map};
ghost use Rattle.prem_time.specs.Asked.{distances_in};
ghost use Rattle.prem_chart.specs.Keeping.{are_far, is_far, stray_from, stray_in};

use prem_gate::Request;
use prem_plant::Device;
use prem_time::{Distance, every_of};

/// Whether a request may come in this cycle, behind one in the cycle `last`. A device that isn't named makes none.
fn is_far(every: Option<u64>, last: Option<u64>, cycle: u64) -> bool
    ensures { result ≡ is_far every last cycle }
{
    match every {
        None => false,
        Some(every) => match last {
            None => true,
            Some(last) => u128::from(last) + u128::from(every) <= u128::from(cycle),
        },
    }
}

/// Whether the requests of device number j keep its distance.
fn are_far(every: Option<u64>, j: usize, requests: &[Request]) -> bool
    ensures { result ≡ are_far every j None requests.now }
{
    let mut last = None;
    for request in requests {
        if usize::from(request.device) == j {
            if !is_far(every, last, request.cycle) {
                return false;
            }
            last = Some(request.cycle);
        }
    }
    true
}

/// The name of the first device whose requests don't keep their distance.
fn stray_from<'a>(
    distances: &[Distance],
    devices: &'a [Device],
    requests: &[Request],
) -> Option<&'a [u8]>
    ensures { option_map (λ name. name.now) result ≡ stray_from (distances_in distances.now) 0 devices.now requests.now }
{
    for j in 0..devices.len() {
        let name = devices[j].name.text().as_bytes();
        if !are_far(every_of(distances, name), j, requests) {
            return Some(name);
        }
    }
    None
}

/// That device, where any distance is told.
#[tactic(auto, using(crate::proofs::AnyNamed::stray_some))]
pub(crate) fn stray_in<'a>(
    distances: &[Distance],
    devices: &'a [Device],
    requests: &[Request],
) -> Option<&'a [u8]>
    ensures { option_map (λ name. name.now) result ≡ stray_in (distances_in distances.now) devices.now requests.now }
{
    match distances {
        [] => None,
        [_, ..] => stray_from(distances, devices, requests),
    }
}
