// One instruction that hits and goes on, from a line whose touch changes nothing.
ghost use Rattle.std.specs.Prelude.{◌≡◌, ◌+◌, ◌*◌, ◌/◌, ◌%◌, ◌^◌, ◌<◌, ◌≤◌, ℕ, true, false, length, None, Some};
ghost use Rattle.prem_list.specs.Sequence.{items_of, room_of};
ghost use Rattle.prem_word.specs.Bytes.{number_at};
ghost use Rattle.prem_isa.specs.declared.effect.Change.TheVariants.{Stay};
ghost use Rattle.prem_isa.specs.Alu.{load_size};
ghost use Rattle.prem_isa.specs.Bounds.{IsPlaced};
ghost use Rattle.prem_lru.specs.CacheState.{view_of};
ghost use Rattle.prem_machine.specs.Hits.{Finds, IsStep, spot_at};
ghost use Rattle.prem_machine.specs.Issue.Coming.{IsExecuted, load_access, load_effect};
ghost use Rattle.prem_machine.specs.Issue.Tasks.{with_outputs};
ghost use Rattle.prem_machine.specs.Plain.{storing};

use crate::hits::followed::{Followed, stores_in};
use crate::issue::{TaskCore, cost_at};
use crate::plain::{moving, putting, storing};
use prem_image::TaskRecord;
use prem_isa::{DataLoad, Effect, Stored};
use prem_list::Sequence;
use prem_lru::{Cache, Memory, Policy};
use prem_plant::Plant;

/// A task executes an instruction of this cost and effect, which accesses nothing, from a line whose touch changes nothing.
#[inline(always)]
fn go_on<P: Policy>(
    cost: u32,
    effect: Effect,
    task: &TaskRecord,
    core: &mut TaskCore,
    cache: &Cache<P>,
    mem: &Memory,
    outputs: &mut Sequence<u32>,
    sum: &mut Followed,
)
    requires entry { task.now.entry % 4 ≡ 0 }
    requires finds { Finds cache.now (core.old.pc / cache.now.plant.line) mem.now cache.now }
    requires does { IsExecuted cache.now.plant.target cache.now.plant.memory (view_of cache.now mem.now) core.old cost effect.access (λ v. effect) }
    requires register { effect.rd < 32 }
    requires pc { effect.pc % 4 ≡ 0 }
    requires access { effect.access ≡ None }
    requires stored { effect.stored ≡ None }
    requires stays { effect.change ≡ Stay }
    requires takes_none { effect.input ≡ false }
    requires cost { (1 ≤ cost) × (cost ≤ 20) }
    requires room { length (items_of outputs.old) < room_of outputs.old }
    requires sum { (sum.old.time < 2 ^ 62) × ((sum.old.hits < 2 ^ 31) × (sum.old.stores < 2 ^ 31)) }
    ensures step { IsStep cache.now.plant mem.now
        (spot_at (with_outputs (items_of outputs.old) core.old) cache.now sum.old.time sum.old.hits sum.old.stores)
        (spot_at (with_outputs (items_of outputs.new) core.new) cache.now sum.new.time sum.new.hits sum.new.stores) }
    ensures room { room_of outputs.new ≡ room_of outputs.old }
{
    let _cache = cache;
    let _mem = mem;
    core.advance(task, effect, outputs);
    sum.add(cost, 1, 0);
}

/// The effect of a load that takes this number.
#[inline(always)]
fn effect_of(load: DataLoad, number: u32) -> Effect
    requires { number < 256 ^ load_size load.op }
    ensures effect { (view : ℕ → ℕ) → number ≡ number_at view load.address (load_size load.op) → result ≡ load_effect load view }
    ensures register { result.rd ≡ load.rd }
    ensures pc { result.pc ≡ load.next }
    ensures output { result.output ≡ None }
{
    load.effect(number)
}

/// The same of a load, where it finds its line. Where it doesn't, nothing changes.
#[inline(always)]
fn load_on<P: Policy>(
    cost: u32,
    load: DataLoad,
    task: &TaskRecord,
    core: &mut TaskCore,
    cache: &mut Cache<P>,
    mem: &Memory,
    outputs: &mut Sequence<u32>,
    sum: &mut Followed,
) -> bool
    requires entry { task.now.entry % 4 ≡ 0 }
    requires memory { length mem.now ≡ cache.old.plant.memory }
    requires finds { Finds cache.old (core.old.pc / cache.old.plant.line) mem.now cache.old }
    requires does { IsExecuted cache.old.plant.target cache.old.plant.memory (view_of cache.old mem.now) core.old cost (Some (load_access load)) (load_effect load) }
    requires register { load.rd < 32 }
    requires data { IsPlaced cache.old.plant.memory load.address (load_size load.op) }
    requires next { load.next % 4 ≡ 0 }
    requires cost { (1 ≤ cost) × (cost ≤ 20) }
    requires room { length (items_of outputs.old) < room_of outputs.old }
    requires sum { (sum.old.time < 2 ^ 62) × ((sum.old.hits < 2 ^ 31) × (sum.old.stores < 2 ^ 31)) }
    ensures step { result ≡ true → IsStep cache.old.plant mem.now
        (spot_at (with_outputs (items_of outputs.old) core.old) cache.old sum.old.time sum.old.hits sum.old.stores)
        (spot_at (with_outputs (items_of outputs.new) core.new) cache.new sum.new.time sum.new.hits sum.new.stores) }
    ensures none { result ≡ false → (core.new ≡ core.old) × ((cache.new ≡ cache.old) × ((outputs.new ≡ outputs.old) × (sum.new ≡ sum.old))) }
    ensures plant { cache.new.plant ≡ cache.old.plant }
    ensures room { room_of outputs.new ≡ room_of outputs.old }
{
    let Some(number) = cache.hit_load(mem, load.address, load.size() as u8) else {
        return false;
    };
    core.advance(task, effect_of(load, number), outputs);
    sum.add(cost, 2, 0);
    true
}

/// The same of a store.
#[inline(always)]
fn store_on<P: Policy>(
    cost: u32,
    stored: Stored,
    next: u32,
    task: &TaskRecord,
    core: &mut TaskCore,
    cache: &mut Cache<P>,
    mem: &Memory,
    outputs: &mut Sequence<u32>,
    sum: &mut Followed,
) -> bool
    requires entry { task.now.entry % 4 ≡ 0 }
    requires memory { length mem.now ≡ cache.old.plant.memory }
    requires finds { Finds cache.old (core.old.pc / cache.old.plant.line) mem.now cache.old }
    requires does { let e = storing stored.address stored.size stored.value next in
        IsExecuted cache.old.plant.target cache.old.plant.memory (view_of cache.old mem.now) core.old cost e.access (λ v. e) }
    requires data { IsPlaced cache.old.plant.memory stored.address stored.size }
    requires next { next % 4 ≡ 0 }
    requires cost { (1 ≤ cost) × (cost ≤ 20) }
    requires room { length (items_of outputs.old) < room_of outputs.old }
    requires sum { (sum.old.time < 2 ^ 62) × ((sum.old.hits < 2 ^ 31) × (sum.old.stores < 2 ^ 31)) }
    ensures step { result ≡ true → IsStep cache.old.plant mem.now
        (spot_at (with_outputs (items_of outputs.old) core.old) cache.old sum.old.time sum.old.hits sum.old.stores)
        (spot_at (with_outputs (items_of outputs.new) core.new) cache.new sum.new.time sum.new.hits sum.new.stores) }
    ensures none { result ≡ false → (core.new ≡ core.old) × ((cache.new ≡ cache.old) × ((outputs.new ≡ outputs.old) × (sum.new ≡ sum.old))) }
    ensures plant { cache.new.plant ≡ cache.old.plant }
    ensures room { room_of outputs.new ≡ room_of outputs.old }
{
    if !cache.hit_store(mem, stored.address, stored.size as u8, stored.value) {
        return false;
    }
    let phase = core.phase();
    let effect = storing(stored.address, stored.size, stored.value, next);
    core.advance(task, effect, outputs);
    sum.add(cost, 2, stores_in(phase, Some(stored)));
    true
}

/// A word that stands at a task's place, on a line whose touch changes nothing, is executed, where its instruction hits and goes on and
/// takes no input word. Where it doesn't, nothing changes. `plant` is a copy of the cache's, which needn't be read anew in each turn.
#[inline(always)]
fn hit_word<P: Policy, const TOLD: bool>(
    plant: &Plant,
    word: u32,
    task: &TaskRecord,
    core: &mut TaskCore,
    cache: &mut Cache<P>,
    mem: &Memory,
    outputs: &mut Sequence<u32>,
    sum: &mut Followed,
) -> bool
    requires entry { task.now.entry % 4 ≡ 0 }
    requires plant { plant.now ≡ cache.old.plant }
    requires memory { length mem.now ≡ cache.old.plant.memory }
    requires word { word ≡ number_at (view_of cache.old mem.now) core.old.pc 4 }
    requires place { core.old.pc + 4 ≤ cache.old.plant.memory }
    requires finds { Finds cache.old (core.old.pc / cache.old.plant.line) mem.now cache.old }
    requires room { length (items_of outputs.old) < room_of outputs.old }
    requires sum { (sum.old.time < 2 ^ 62) × ((sum.old.hits < 2 ^ 31) × (sum.old.stores < 2 ^ 31)) }
    ensures step { result ≡ true → IsStep cache.old.plant mem.now
        (spot_at (with_outputs (items_of outputs.old) core.old) cache.old sum.old.time sum.old.hits sum.old.stores)
        (spot_at (with_outputs (items_of outputs.new) core.new) cache.new sum.new.time sum.new.hits sum.new.stores) }
    ensures none { result ≡ false → (core.new ≡ core.old) × ((cache.new ≡ cache.old) × ((outputs.new ≡ outputs.old) × (sum.new ≡ sum.old))) }
    ensures plant { cache.new.plant ≡ cache.old.plant }
    ensures room { room_of outputs.new ≡ room_of outputs.old }
{
    let _plant = cache.plant();
    let pc = core.pc();
    let behind = pc + 4;
    if let Some(m) = core.moves(plant.target, plant.memory, word) {
        let effect = moving(m.rd, m.value, m.next);
        go_on(cost_at(word), effect, task, core, cache, mem, outputs, sum);
        return true;
    }
    if let Some(load) = core.loads(plant.memory, word) {
        return load_on(cost_at(word), load, task, core, cache, mem, outputs, sum);
    }
    if let Some(stored) = core.stores(plant.memory, word) {
        return store_on(
            cost_at(word),
            stored,
            behind,
            task,
            core,
            cache,
            mem,
            outputs,
            sum,
        );
    }
    if let Some(out) = core.puts(word) {
        let effect = putting(out, behind);
        go_on(cost_at(word), effect, task, core, cache, mem, outputs, sum);
        return true;
    }
    false
}

/// The next instruction of a task is executed, where its line is settled and it hits, goes on in its interval and takes no input word.
/// Where it doesn't, nothing changes. `near` is a slot to look for its line first. Each loop that calls it is to have a copy of its
/// own: `TOLD` tells them apart, the one that tells of instructions and the other.
#[inline(always)]
pub(crate) fn hit_settled<P: Policy, const TOLD: bool>(
    plant: &Plant,
    task: &TaskRecord,
    core: &mut TaskCore,
    cache: &mut Cache<P>,
    mem: &Memory,
    near: &mut usize,
    outputs: &mut Sequence<u32>,
    sum: &mut Followed,
) -> bool
    requires entry { task.now.entry % 4 ≡ 0 }
    requires plant { plant.now ≡ cache.old.plant }
    requires memory { length mem.now ≡ cache.old.plant.memory }
    requires near { near.old < cache.old.plant.sets * cache.old.plant.«ways» }
    requires room { length (items_of outputs.old) < room_of outputs.old }
    requires sum { (sum.old.time < 2 ^ 62) × ((sum.old.hits < 2 ^ 31) × (sum.old.stores < 2 ^ 31)) }
    ensures step { result ≡ true → IsStep cache.old.plant mem.now
        (spot_at (with_outputs (items_of outputs.old) core.old) cache.old sum.old.time sum.old.hits sum.old.stores)
        (spot_at (with_outputs (items_of outputs.new) core.new) cache.new sum.new.time sum.new.hits sum.new.stores) }
    ensures none { result ≡ false → (core.new ≡ core.old) × ((cache.new ≡ cache.old) × ((outputs.new ≡ outputs.old) × (sum.new ≡ sum.old))) }
    ensures near { near.new < cache.old.plant.sets * cache.old.plant.«ways» }
    ensures plant { cache.new.plant ≡ cache.old.plant }
    ensures room { room_of outputs.new ≡ room_of outputs.old }
{
    let pc = core.pc();
    let Some(word) = cache.word_settled(near, pc) else {
        return false;
    };
    hit_word::<P, TOLD>(plant, word, task, core, cache, mem, outputs, sum)
}
