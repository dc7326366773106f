// Instructions that go on in their interval and take no input word, decoded and executed at once.
ghost use Rattle.std.specs.Prelude.{◌≡◌, ◌+◌, ◌/◌, ◌%◌, ◌<◌, ◌≤◌, ◌^◌, [], false, true, All, IfNone, IfSome, None, Some, length, map, slice_set};
ghost use Rattle.prem_list.specs.Sequence.{items_of, room_of};
ghost use Rattle.prem_plant.specs.declared.plant.Plant.{Plant};
ghost use Rattle.prem_plant.specs.Ranges.{IsPlant};
ghost use Rattle.prem_isa.specs.Alu.{load_size};
ghost use Rattle.prem_isa.specs.Bounds.{IsPlaced};
ghost use Rattle.prem_lru.specs.Rules.{rule_of};
ghost use Rattle.prem_lru.specs.Settled.{IsSettled};
ghost use Rattle.prem_cycle.specs.State.{record_of, rule_in, task_in};
ghost use Rattle.prem_cycle.specs.Issue.{issued_by, owed_by, task_after, view_behind, with_store, with_touches};
ghost use Rattle.prem_cycle.specs.Runs.Window.Wants.{lacks_word};
ghost use Rattle.prem_machine.specs.Issue.Attempts.{CanIssue};
ghost use Rattle.prem_machine.specs.Issue.Coming.{load_access, load_effect};
ghost use Rattle.prem_machine.specs.Issue.Counting.{counts_in};
ghost use Rattle.prem_machine.specs.Issue.Near.{IsNear};
ghost use Rattle.prem_machine.specs.Log.{CountsWithin, ended_in, put_out};
ghost use Rattle.prem_machine.specs.Plain.{GoesOn, IsComing, IsKept, moving, putting, storing};
ghost use Rattle.prem_machine.specs.Wanted.{attempt_at, core_in};
ghost use Rattle.prem_machine.specs.Work.{setup_in, tasks_in, work_in};

use crate::issue::{Near, Touches, cost_at, count, touch_known, touch_load};
use crate::work::{Setting, Works};
use prem_cycle::{Facts, TaskFacts};
use prem_isa::{Access, AccessKind, Change, DataLoad, Effect, Stored, Upshot};
use prem_lru::Policy;

/// An instruction that was executed: the lines that it has touched, whether all of them hit, and its cost in cycles.
#[derive(Drop)]
pub struct Plain {
    pub touches: Touches,
    pub hit: bool,
    pub cost: u32,
}

/// The effect of an instruction that only goes on.
#[inline(always)]
fn going(next: u32) -> Effect
    ensures { result ≡ moving 0 0 next }
{
    Effect {
        rd: 0,
        value: 0,
        pc: next,
        access: None,
        stored: None,
        output: None,
        input: false,
        change: Change::Stay,
    }
}

/// The effect of one that writes a register.
#[inline(always)]
pub(crate) fn moving(rd: u8, value: u32, next: u32) -> Effect
    ensures { result ≡ moving rd value next }
{
    Effect {
        rd,
        value,
        ..going(next)
    }
}

/// The effect of a store.
#[inline(always)]
pub(crate) fn storing(address: u32, size: u32, value: u32, next: u32) -> Effect
    ensures { result ≡ storing address size value next }
{
    Effect {
        access: Some(Access {
            kind: AccessKind::Stores,
            address,
            size,
        }),
        stored: Some(Stored {
            address,
            size,
            value,
        }),
        ..going(next)
    }
}

/// The effect of an instruction that puts a word out.
#[inline(always)]
pub(crate) fn putting(word: u32, next: u32) -> Effect
    ensures { result ≡ putting word next }
{
    Effect {
        output: Some(word),
        ..going(next)
    }
}

/// A task goes on by an effect.
#[inline(always)]
fn go_on_by<P: Policy>(
    k: usize,
    effect: Effect,
    setting: &Setting,
    work: &mut Works<P>,
    tasks: &mut [TaskFacts],
)
    requires at { k < length setting.now.tasks.items }
    requires entries { All (λ r. r.entry % 4 ≡ 0) setting.now.tasks.items }
    requires cores { length work.old.cores.items ≡ length setting.now.tasks.items }
    requires told { length tasks.old ≡ length setting.now.tasks.items }
    requires room { All (λ t. length (items_of t.outputs) < room_of t.outputs) tasks.old }
    requires register { effect.rd < 32 }
    requires pc { effect.pc % 4 ≡ 0 }
    ensures tasks { tasks_in work.new.cores.items tasks.new
        ≡ slice_set (tasks_in work.old.cores.items tasks.old) k
        (task_after (record_of (setup_in setting.now) k) effect (task_in (work_in work.old tasks.old) k)) }
    ensures cache { work.new.cache ≡ work.old.cache }
    ensures memory { work.new.memory ≡ work.old.memory }
    ensures ended { ended_in tasks.new ≡ ended_in tasks.old }
    ensures rooms { map (λ t. room_of t.outputs) tasks.new ≡ map (λ t. room_of t.outputs) tasks.old }
    ensures cores { length work.new.cores.items ≡ length work.old.cores.items }
    ensures put { put_out tasks.new ≤ put_out tasks.old + 1 }
{
    let told = &mut tasks[k];
    let core = &mut work.cores[k];
    core.advance(&setting.tasks[k], effect, &mut told.outputs);
}

/// Whether an instruction from a line touches that line alone, and it is the one of the last fetch.
#[inline(always)]
fn stays_near(line: u32, last: u32, effect: Effect) -> bool
    ensures { result ≡ true → (line ≡ last) × (effect.access ≡ None) }
{
    line == last && effect.access.is_none()
}

/// A task executes an instruction of this effect, which accesses nothing, from a line whose touch changes nothing.
#[inline(always)]
fn carry_near<P: Policy>(
    k: usize,
    cost: u32,
    line: u32,
    effect: Effect,
    setting: &Setting,
    work: &mut Works<P>,
    facts: &mut Facts,
) -> Plain
    requires at { k < length setting.now.tasks.items }
    requires entries { All (λ r. r.entry % 4 ≡ 0) setting.now.tasks.items }
    requires cores { length work.old.cores.items ≡ length setting.now.tasks.items }
    requires told { length (items_of facts.old.tasks) ≡ length setting.now.tasks.items }
    requires room { All (λ t. length (items_of t.outputs) < room_of t.outputs) (items_of facts.old.tasks) }
    requires counts { CountsWithin (2 ^ 63) (counts_in facts.old) }
    requires line { line ≡ (core_in work.old k).pc / setting.now.plant.line }
    requires settled { IsSettled (rule_of setting.now.plant.policy) work.old.cache line }
    requires register { effect.rd < 32 }
    requires pc { effect.pc % 4 ≡ 0 }
    requires access { effect.access ≡ None }
    requires stored { effect.stored ≡ None }
    ensures issued { issued_by (rule_in (setup_in setting.now)) (setup_in setting.now) k effect (work_in work.old (items_of facts.old.tasks))
        ≡ record { work = work_in work.new (items_of facts.new.tasks); touches = result.touches } }
    ensures counts { counts_in facts.new ≡ with_store (core_in work.old k).phase effect.stored
        (with_touches (core_in work.old k).phase result.touches (counts_in facts.old)) }
    ensures kept { IsKept work.old facts.old work.new facts.new }
    ensures hit { result.hit ≡ true → (plant : Plant) → owed_by plant result.touches ≡ [] }
    ensures cost { result.cost ≡ cost }
    ensures cache { work.new.cache ≡ work.old.cache }
{
    go_on_by(k, effect, setting, work, facts.tasks.items_mut());
    facts.hits += 1;
    Plain {
        touches: Touches::one_hit(line),
        hit: true,
        cost,
    }
}

/// A task executes an instruction of this effect, which loads nothing.
#[inline(always)]
fn carry_known<P: Policy>(
    k: usize,
    cost: u32,
    effect: Effect,
    setting: &Setting,
    work: &mut Works<P>,
    near: &mut Near,
    facts: &mut Facts,
) -> Plain
    requires at { k < length setting.now.tasks.items }
    requires entries { All (λ r. r.entry % 4 ≡ 0) setting.now.tasks.items }
    requires memory { length work.old.memory ≡ setting.now.plant.memory }
    requires cache { work.old.cache.plant ≡ setting.now.plant }
    requires cores { length work.old.cores.items ≡ length setting.now.tasks.items }
    requires told { length (items_of facts.old.tasks) ≡ length setting.now.tasks.items }
    requires room { All (λ t. length (items_of t.outputs) < room_of t.outputs) (items_of facts.old.tasks) }
    requires counts { CountsWithin (2 ^ 63) (counts_in facts.old) }
    requires near { IsNear work.old.cache near.old.line }
    requires ready { CanIssue setting.now.plant.memory (core_in work.old k).pc effect }
    ensures issued { issued_by (rule_in (setup_in setting.now)) (setup_in setting.now) k effect (work_in work.old (items_of facts.old.tasks))
        ≡ record { work = work_in work.new (items_of facts.new.tasks); touches = result.touches } }
    ensures counts { counts_in facts.new ≡ with_store (core_in work.old k).phase effect.stored
        (with_touches (core_in work.old k).phase result.touches (counts_in facts.old)) }
    ensures kept { IsKept work.old facts.old work.new facts.new }
    ensures hit { result.hit ≡ true → (plant : Plant) → owed_by plant result.touches ≡ [] }
    ensures cost { result.cost ≡ cost }
    ensures near { IsNear work.new.cache near.new.line }
{
    let core = &work.cores[k];
    let pc = core.pc();
    let phase = core.phase();
    let line = work.cache.line_of(pc);
    if stays_near(line, near.line, effect) {
        return carry_near(k, cost, line, effect, setting, work, facts);
    }
    let touches = touch_known(&mut work.cache, &mut work.memory, near, pc, effect);
    go_on_by(k, effect, setting, work, facts.tasks.items_mut());
    count(facts, phase, effect, &touches);
    Plain {
        hit: touches.hit(),
        touches,
        cost,
    }
}

/// A task executes a load.
#[inline(always)]
fn carry_load<P: Policy>(
    k: usize,
    load: DataLoad,
    setting: &Setting,
    work: &mut Works<P>,
    near: &mut Near,
    facts: &mut Facts,
) -> Touches
    requires at { k < length setting.now.tasks.items }
    requires entries { All (λ r. r.entry % 4 ≡ 0) setting.now.tasks.items }
    requires memory { length work.old.memory ≡ setting.now.plant.memory }
    requires cache { work.old.cache.plant ≡ setting.now.plant }
    requires cores { length work.old.cores.items ≡ length setting.now.tasks.items }
    requires told { length (items_of facts.old.tasks) ≡ length setting.now.tasks.items }
    requires room { All (λ t. length (items_of t.outputs) < room_of t.outputs) (items_of facts.old.tasks) }
    requires counts { CountsWithin (2 ^ 63) (counts_in facts.old) }
    requires near { IsNear work.old.cache near.old.line }
    requires place { (core_in work.old k).pc + 4 ≤ setting.now.plant.memory }
    requires register { load.rd < 32 }
    requires data { IsPlaced setting.now.plant.memory load.address (load_size load.op) }
    requires next { load.next % 4 ≡ 0 }
    ensures issued { let s = setup_in setting.now in
        let w = work_in work.old (items_of facts.old.tasks) in
        issued_by (rule_in s) s k (load_effect load (view_behind (rule_in s) s k w (Some (load_access load)))) w
        ≡ record { work = work_in work.new (items_of facts.new.tasks); touches = result } }
    ensures counts { counts_in facts.new ≡ with_touches (core_in work.old k).phase result (counts_in facts.old) }
    ensures kept { IsKept work.old facts.old work.new facts.new }
    ensures near { IsNear work.new.cache near.new.line }
{
    let core = &work.cores[k];
    let pc = core.pc();
    let phase = core.phase();
    let (touches, effect) = touch_load(&mut work.cache, &mut work.memory, near, pc, load);
    go_on_by(k, effect, setting, work, facts.tasks.items_mut());
    count(facts, phase, effect, &touches);
    touches
}

/// An instruction of this cost and upshot issues, where it goes on in its interval and takes no input word. Of any other
/// one nothing changes. It is too large to be inlined but where it is called once, so each place has a copy of its own.
#[inline(always)]
fn issue_upshot<P: Policy, const FIRST: bool>(
    k: usize,
    cost: u32,
    upshot: Upshot,
    setting: &Setting,
    work: &mut Works<P>,
    near: &mut Near,
    facts: &mut Facts,
) -> Option<Plain>
    requires at { k < length setting.now.tasks.items }
    requires plant { IsPlant setting.now.plant }
    requires entries { All (λ r. r.entry % 4 ≡ 0) setting.now.tasks.items }
    requires memory { length work.old.memory ≡ setting.now.plant.memory }
    requires cache { work.old.cache.plant ≡ setting.now.plant }
    requires cores { length work.old.cores.items ≡ length setting.now.tasks.items }
    requires told { length (items_of facts.old.tasks) ≡ length setting.now.tasks.items }
    requires room { All (λ t. length (items_of t.outputs) < room_of t.outputs) (items_of facts.old.tasks) }
    requires counts { CountsWithin (2 ^ 63) (counts_in facts.old) }
    requires near { IsNear work.old.cache near.old.line }
    requires coming { IsComing setting.now k work.old cost upshot }
    ensures goes_on { IfSome result (λ r. GoesOn setting.now k work.old facts.old work.new facts.new r.touches r.cost) }
    ensures hit { IfSome result (λ r. r.hit ≡ true → (plant : Plant) → owed_by plant r.touches ≡ []) }
    ensures kept { IfSome result (λ r. IsKept work.old facts.old work.new facts.new) }
    ensures cost { IfSome result (λ r. r.cost ≡ cost) }
    ensures takes_none { IfSome result (λ r. lacks_word (core_in work.old k) (attempt_at work.old k) ≡ false) }
    ensures near { IsNear work.new.cache near.new.line }
    ensures none { IfNone result ((work.new ≡ work.old) × (facts.new ≡ facts.old)) }
{
    let behind = work.cores[k].pc() + 4;
    match upshot {
        Upshot::Moves { rd, value, next } => {
            let effect = moving(rd, value, next);
            Some(carry_known(k, cost, effect, setting, work, near, facts))
        }
        Upshot::Loads {
            op,
            rd,
            address,
            next,
        } => {
            let load = DataLoad {
                op,
                rd,
                address,
                next,
            };
            let touches = carry_load(k, load, setting, work, near, facts);
            Some(Plain {
                hit: touches.hit(),
                touches,
                cost,
            })
        }
        Upshot::Stores {
            address,
            size,
            value,
        } => {
            let effect = storing(address, size, value, behind);
            Some(carry_known(k, cost, effect, setting, work, near, facts))
        }
        Upshot::Puts { word } => {
            let effect = putting(word, behind);
            Some(carry_known(k, cost, effect, setting, work, near, facts))
        }
        _ => None,
    }
}

/// The next instruction of a task, where it goes on in its interval, takes no input word, and has at most this cost: it
/// issues at once. Of any other one, and where it traps, nothing changes. Each place that calls it is to have a copy of its
/// own: `FIRST` tells them apart, the first instruction of an interval and those that follow each other.
#[inline(always)]
pub fn issue_plain<P: Policy, const FIRST: bool>(
    k: usize,
    most: u64,
    setting: &Setting,
    work: &mut Works<P>,
    near: &mut Near,
    facts: &mut Facts,
) -> Option<Plain>
    requires at { k < length setting.now.tasks.items }
    requires plant { IsPlant setting.now.plant }
    requires entries { All (λ r. r.entry % 4 ≡ 0) setting.now.tasks.items }
    requires memory { length work.old.memory ≡ setting.now.plant.memory }
    requires cache { work.old.cache.plant ≡ setting.now.plant }
    requires cores { length work.old.cores.items ≡ length setting.now.tasks.items }
    requires told { length (items_of facts.old.tasks) ≡ length setting.now.tasks.items }
    requires room { All (λ t. length (items_of t.outputs) < room_of t.outputs) (items_of facts.old.tasks) }
    requires counts { CountsWithin (2 ^ 63) (counts_in facts.old) }
    requires near { IsNear work.old.cache near.old.line }
    ensures goes_on { IfSome result (λ r. GoesOn setting.now k work.old facts.old work.new facts.new r.touches r.cost) }
    ensures hit { IfSome result (λ r. r.hit ≡ true → (plant : Plant) → owed_by plant r.touches ≡ []) }
    ensures kept { IfSome result (λ r. IsKept work.old facts.old work.new facts.new) }
    ensures cost { IfSome result (λ r. (1 ≤ r.cost) × (r.cost ≤ most)) }
    ensures takes_none { IfSome result (λ r. lacks_word (core_in work.old k) (attempt_at work.old k) ≡ false) }
    ensures near { IsNear work.new.cache near.new.line }
    ensures none { IfNone result ((work.new ≡ work.old) × (facts.new ≡ facts.old)) }
{
    let size = setting.plant.memory;
    let core = &work.cores[k];
    let pc = core.pc();
    if u64::from(pc) + 4 > u64::from(size) {
        return None;
    }
    let line = work.cache.line_of(pc);
    near.find(&work.cache, line);
    let word = work.cache.peek_near(&work.memory, near.slot, pc, 4);
    let cost = cost_at(word);
    if u64::from(cost) > most {
        return None;
    }
    let upshot = core.coming(setting.plant.target, size, word);
    issue_upshot::<P, FIRST>(k, cost, upshot, setting, work, near, facts)
}
