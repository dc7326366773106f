// One instruction that hits and goes on.
ghost use Rattle.std.specs.Prelude.{◌≡◌, ◌+◌, ◌^◌, ◌/◌, ◌%◌, ◌<◌, ◌≤◌, false, true, length, IfNone, IfSome, Some};
ghost use Rattle.prem_list.specs.Sequence.{items_of, room_of};
ghost use Rattle.prem_isa.specs.declared.effect.Change.TheVariants.{Stay};
ghost use Rattle.prem_isa.specs.Alu.{load_size};
ghost use Rattle.prem_isa.specs.Bounds.{IsPlaced};
ghost use Rattle.prem_lru.specs.CacheState.{is_resident, view_of};
ghost use Rattle.prem_machine.specs.Hits.{IsHit, IsStep, count_of, lines_there, spot_at};
ghost use Rattle.prem_machine.specs.Issue.Attempts.{CanIssue};
ghost use Rattle.prem_machine.specs.Issue.Coming.{IsExecuted, load_access, load_effect};
ghost use Rattle.prem_machine.specs.Issue.Near.{IsNear};
ghost use Rattle.prem_machine.specs.Issue.Tasks.{with_outputs};

use crate::hits::followed::{Followed, stores_in};
use crate::issue::{Near, TaskCore, cost_at, touch_known, touch_load};
use crate::plain::{moving, putting, storing};
use prem_image::TaskRecord;
use prem_isa::{Access, AccessKind, DataLoad, Effect};
use prem_list::Sequence;
use prem_lru::{Cache, Memory, Policy};

/// An instruction that has hit: its cost in cycles, the lines that it has found, and the stores that it counts as.
#[derive(Clone, Copy, PartialEq, Eq, Debug)]
pub(crate) struct Hit {
    pub cost: u32,
    pub hits: u32,
    pub stores: u32,
}

/// How many lines an instruction with this access touches.
#[inline(always)]
fn count_of(access: Option<Access>) -> u32
    ensures { result ≡ count_of access }
{
    match access {
        Some(_) => 2,
        None => 1,
    }
}

/// Whether the line of a fetch and that of an access, if there is one, are in the cache.
#[inline(always)]
fn are_there<P: Policy>(cache: &Cache<P>, near: &Near, line: u32, access: Option<Access>) -> bool
    requires near { IsNear cache.now near.now.line }
    requires line { line < cache.now.plant.memory / cache.now.plant.line }
    ensures { result ≡ true → lines_there cache.now line access }
{
    if line != near.line && !cache.resident(line) {
        return false;
    }
    match access {
        Some(access) => cache.resident(cache.line_of(access.address)),
        None => true,
    }
}

/// An instruction of this cost and effect, which loads nothing, is executed, where it finds all its lines. Of any other one
/// nothing changes.
#[inline(always)]
pub(crate) fn hit_known<P: Policy>(
    cost: u32,
    effect: Effect,
    task: &TaskRecord,
    core: &mut TaskCore,
    cache: &mut Cache<P>,
    mem: &mut Memory,
    near: &mut Near,
    outputs: &mut Sequence<u32>,
) -> Option<Hit>
    requires entry { task.now.entry % 4 ≡ 0 }
    requires memory { length mem.old ≡ cache.old.plant.memory }
    requires near { IsNear cache.old near.old.line }
    requires ready { CanIssue cache.old.plant.memory core.old.pc effect }
    requires room { length (items_of outputs.old) < room_of outputs.old }
    requires does { IsExecuted cache.old.plant.target cache.old.plant.memory (view_of cache.old mem.old) core.old cost effect.access (λ v. effect) }
    requires stays { effect.change ≡ Stay }
    requires takes_none { effect.input ≡ false }
    ensures hit { IfSome result (λ h. IsHit cache.old.plant mem.old (with_outputs (items_of outputs.old) core.old) cache.old
        (with_outputs (items_of outputs.new) core.new) cache.new h.cost h.hits h.stores) }
    ensures cost { IfSome result (λ h. (h.cost ≡ cost) × ((h.hits ≤ 2) × (h.stores ≤ 1))) }
    ensures none { IfNone result ((core.new ≡ core.old) × (cache.new ≡ cache.old) × (outputs.new ≡ outputs.old)) }
    ensures memory { mem.new ≡ mem.old }
    ensures near { IsNear cache.new near.new.line }
    ensures plant { cache.new.plant ≡ cache.old.plant }
    ensures room { room_of outputs.new ≡ room_of outputs.old }
{
    let pc = core.pc();
    let phase = core.phase();
    let line = cache.line_of(pc);
    if !are_there(cache, near, line, effect.access) {
        return None;
    }
    let _touches = touch_known(cache, mem, near, pc, effect);
    core.advance(task, effect, outputs);
    Some(Hit {
        cost,
        hits: count_of(effect.access),
        stores: stores_in(phase, effect.stored),
    })
}

/// As `hit_known`, for a load.
#[inline(always)]
pub(crate) fn hit_load<P: Policy>(
    cost: u32,
    load: DataLoad,
    task: &TaskRecord,
    core: &mut TaskCore,
    cache: &mut Cache<P>,
    mem: &mut Memory,
    near: &mut Near,
    outputs: &mut Sequence<u32>,
) -> Option<Hit>
    requires entry { task.now.entry % 4 ≡ 0 }
    requires memory { length mem.old ≡ cache.old.plant.memory }
    requires near { IsNear cache.old near.old.line }
    requires place { core.old.pc + 4 ≤ cache.old.plant.memory }
    requires register { load.rd < 32 }
    requires data { IsPlaced cache.old.plant.memory load.address (load_size load.op) }
    requires next { load.next % 4 ≡ 0 }
    requires room { length (items_of outputs.old) < room_of outputs.old }
    requires does { IsExecuted cache.old.plant.target cache.old.plant.memory (view_of cache.old mem.old) core.old cost (Some (load_access load)) (load_effect load) }
    ensures hit { IfSome result (λ h. IsHit cache.old.plant mem.old (with_outputs (items_of outputs.old) core.old) cache.old
        (with_outputs (items_of outputs.new) core.new) cache.new h.cost h.hits h.stores) }
    ensures cost { IfSome result (λ h. (h.cost ≡ cost) × ((h.hits ≤ 2) × (h.stores ≤ 1))) }
    ensures none { IfNone result ((core.new ≡ core.old) × (cache.new ≡ cache.old) × (outputs.new ≡ outputs.old)) }
    ensures memory { mem.new ≡ mem.old }
    ensures near { IsNear cache.new near.new.line }
    ensures plant { cache.new.plant ≡ cache.old.plant }
    ensures room { room_of outputs.new ≡ room_of outputs.old }
{
    let pc = core.pc();
    let line = cache.line_of(pc);
    let access = Access {
        kind: AccessKind::Loads,
        address: load.address,
        size: load.size(),
    };
    if !are_there(cache, near, line, Some(access)) {
        return None;
    }
    let (_touches, effect) = touch_load(cache, mem, near, pc, load);
    core.advance(task, effect, outputs);
    Some(Hit {
        cost,
        hits: 2,
        stores: 0,
    })
}

/// The next instruction of a task, where it hits and goes on in its interval, and takes no input word, is executed. Of any
/// other one, and where it traps, nothing changes. `slot` is one to look for its line first.
#[inline(always)]
fn hit_next<P: Policy>(
    slot: usize,
    task: &TaskRecord,
    core: &mut TaskCore,
    cache: &mut Cache<P>,
    mem: &mut Memory,
    near: &mut Near,
    outputs: &mut Sequence<u32>,
) -> Option<Hit>
    requires entry { task.now.entry % 4 ≡ 0 }
    requires memory { length mem.old ≡ cache.old.plant.memory }
    requires near { IsNear cache.old near.old.line }
    requires room { length (items_of outputs.old) < room_of outputs.old }
    ensures hit { IfSome result (λ h. IsHit cache.old.plant mem.old (with_outputs (items_of outputs.old) core.old) cache.old
        (with_outputs (items_of outputs.new) core.new) cache.new h.cost h.hits h.stores) }
    ensures cost { IfSome result (λ h. (1 ≤ h.cost) × ((h.cost ≤ 20) × ((h.hits ≤ 2) × (h.stores ≤ 1)))) }
    ensures none { IfNone result ((core.new ≡ core.old) × (cache.new ≡ cache.old) × (outputs.new ≡ outputs.old)) }
    ensures memory { mem.new ≡ mem.old }
    ensures near { IsNear cache.new near.new.line }
    ensures plant { cache.new.plant ≡ cache.old.plant }
    ensures room { room_of outputs.new ≡ room_of outputs.old }
{
    let plant = cache.plant();
    let pc = core.pc();
    if u64::from(pc) + 4 > u64::from(plant.memory) {
        return None;
    }
    let word = cache.peek_near(mem, slot, pc, 4);
    let behind = pc + 4;
    if let Some(m) = core.moves(plant.target, plant.memory, word) {
        let effect = moving(m.rd, m.value, m.next);
        return hit_known(cost_at(word), effect, task, core, cache, mem, near, outputs);
    }
    if let Some(load) = core.loads(plant.memory, word) {
        return hit_load(cost_at(word), load, task, core, cache, mem, near, outputs);
    }
    if let Some(stored) = core.stores(plant.memory, word) {
        let effect = storing(stored.address, stored.size, stored.value, behind);
        return hit_known(cost_at(word), effect, task, core, cache, mem, near, outputs);
    }
    if let Some(out) = core.puts(word) {
        let effect = putting(out, behind);
        return hit_known(cost_at(word), effect, task, core, cache, mem, near, outputs);
    }
    None
}

/// As `hit_next`, with nothing known of the line of the last fetch.
#[cold]
#[inline(never)]
fn hit_far<P: Policy>(
    slot: usize,
    task: &TaskRecord,
    core: &mut TaskCore,
    cache: &mut Cache<P>,
    mem: &mut Memory,
    outputs: &mut Sequence<u32>,
) -> Option<Hit>
    requires entry { task.now.entry % 4 ≡ 0 }
    requires memory { length mem.old ≡ cache.old.plant.memory }
    requires room { length (items_of outputs.old) < room_of outputs.old }
    ensures hit { IfSome result (λ h. IsHit cache.old.plant mem.old (with_outputs (items_of outputs.old) core.old) cache.old
        (with_outputs (items_of outputs.new) core.new) cache.new h.cost h.hits h.stores) }
    ensures cost { IfSome result (λ h. (1 ≤ h.cost) × ((h.cost ≤ 20) × ((h.hits ≤ 2) × (h.stores ≤ 1)))) }
    ensures none { IfNone result ((core.new ≡ core.old) × (cache.new ≡ cache.old) × (outputs.new ≡ outputs.old)) }
    ensures memory { mem.new ≡ mem.old }
    ensures plant { cache.new.plant ≡ cache.old.plant }
    ensures room { room_of outputs.new ≡ room_of outputs.old }
{
    let _plant = cache.plant();
    let mut near = Near::none();
    hit_next(slot, task, core, cache, mem, &mut near, outputs)
}

/// As `hit_far`, and counted.
#[inline(always)]
pub(crate) fn hit_unsettled<P: Policy>(
    slot: usize,
    task: &TaskRecord,
    core: &mut TaskCore,
    cache: &mut Cache<P>,
    mem: &mut Memory,
    outputs: &mut Sequence<u32>,
    sum: &mut Followed,
) -> bool
    requires entry { task.now.entry % 4 ≡ 0 }
    requires memory { length mem.old ≡ cache.old.plant.memory }
    requires room { length (items_of outputs.old) < room_of outputs.old }
    requires sum { (sum.old.time < 2 ^ 62) × ((sum.old.hits < 2 ^ 31) × (sum.old.stores < 2 ^ 31)) }
    ensures step { result ≡ true → IsStep cache.old.plant mem.old
        (spot_at (with_outputs (items_of outputs.old) core.old) cache.old sum.old.time sum.old.hits sum.old.stores)
        (spot_at (with_outputs (items_of outputs.new) core.new) cache.new sum.new.time sum.new.hits sum.new.stores) }
    ensures none { result ≡ false → (core.new ≡ core.old) × ((cache.new ≡ cache.old) × ((outputs.new ≡ outputs.old) × (sum.new ≡ sum.old))) }
    ensures memory { mem.new ≡ mem.old }
    ensures plant { cache.new.plant ≡ cache.old.plant }
    ensures room { room_of outputs.new ≡ room_of outputs.old }
{
    let Some(hit) = hit_far(slot, task, core, cache, mem, outputs) else {
        return false;
    };
    sum.add(hit.cost, hit.hits, hit.stores);
    true
}
