// A core's part of a cycle.
ghost use Rattle.std.specs.Prelude.{◌≡◌, ◌+◌, ◌*◌, ◌<◌, ◌≤◌, ◌^◌, ℕ, length, false};
ghost use Rattle.prem_list.specs.Sequence.{items_of, room_of};
ghost use Rattle.prem_cycle.specs.State.{Setup, Work};
ghost use Rattle.prem_cycle.specs.Core.{move_of};
ghost use Rattle.prem_cycle.specs.Cycle.{is_full};
ghost use Rattle.prem_machine.specs.Moment.{ModeReady, MoveBegun, MovePays, MoveReady, core_with, move_as};
ghost use Rattle.prem_machine.specs.Parts.{IsSetting, Stands, state_of};
ghost use Rattle.prem_machine.specs.Work.{setup_in};
ghost use Rattle.prem_pair.specs.Sides.{Arrives, Goes, core_done, move_had};

use crate::token::asks;
use prem_gate::Request;
use prem_lru::Policy;
use prem_machine::{Move, Parts, Setting, move_core};

/// What a core does that doesn't wait for the token, and has had the bus or hasn't.
fn next_step<P: Policy>(parts: &Parts<P>, switch: u32, had: bool) -> Move
    requires now { parts.now.now < 2 ^ 61 }
    requires ready { ModeReady parts.now.now parts.now.sched parts.now.moment.mode }
    requires begun { parts.now.moment.interval.first ≤ parts.now.now }
    ensures meaning { (p : Setup) (w : Work) → p.plant.switch ≡ switch
        → let c = core_with parts.entry.now.core.debt parts.entry.now.moment in
        move_as parts.entry.now.now w c result ≡ move_of p parts.entry.now.now had parts.entry.now.sched w c }
    ensures ready { MoveReady parts.entry.now.now parts.entry.now.sched result }
    ensures begun { MoveBegun parts.entry.now.now result }
    ensures pays { MovePays parts.entry.now.core.debt result }
{
    parts
        .moment
        .next_move(&parts.core, switch, parts.now, had, &parts.sched)
}

/// The core's part of a cycle, behind arrivals and the bus.
#[inline(always)]
pub(crate) fn act<P: Policy>(
    setting: &Setting,
    requests: &[Request],
    parts: &mut Parts<P>,
    holds: bool,
    had: bool,
)
    requires setting { IsSetting setting.now requests.now }
    requires stands { Stands setting.now requests.now parts.old }
    requires goes { Goes (4 * parts.old.now + 1) parts.old }
    requires now { parts.old.now < 2 ^ 61 }
    requires room { is_full (state_of parts.old) ≡ false }
    ensures state { let s = state_of parts.old in
        state_of parts.new ≡ core_done (setup_in setting.now) (move_had holds had (setup_in setting.now) s.now s.sched s.work s.core) s }
    ensures stands { Stands setting.now requests.now parts.new }
    ensures goes { Goes (4 * parts.old.now + 3) parts.new }
    ensures arrives { (t : ℕ) → Arrives t requests.now parts.old → Arrives t requests.now parts.new }
    ensures room { length (items_of parts.new.facts.intervals) < room_of parts.new.facts.intervals }
    ensures now { parts.new.now ≡ parts.old.now }
    ensures gates { parts.new.gates ≡ parts.old.gates }
{
    if !holds && asks(parts) {
        // it waits for the token
        parts.trapped = None;
        return;
    }
    let step = next_step(parts, setting.plant.switch, had);
    parts.trapped = move_core(
        parts.now,
        step,
        setting,
        &mut parts.work,
        &mut parts.core,
        &mut parts.moment,
        &mut parts.facts,
    );
}
