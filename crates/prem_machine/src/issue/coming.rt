// What a word comes to that stands at a task's place, decoded and executed at once.
ghost use Rattle.std.specs.Prelude.{◌≡◌, ◌==◌, ◌+◌, ◌≤◌, ◌<◌, ℕ, IfSome, length, slice_index, if◌then◌else◌};
ghost use Rattle.prem_plant.specs.declared.plant.Target.{Target};
ghost use Rattle.prem_isa.specs.declared.step.Upshot.TheVariants.{Loads, Moves, Puts, Stores};
ghost use Rattle.prem_isa.specs.declared.effect.Phase.{Phase};
ghost use Rattle.prem_isa.specs.Decode.{decode_of};
ghost use Rattle.prem_isa.specs.Fields.{fields_of};
ghost use Rattle.prem_isa.specs.Step.{UpshotFits, act_of, told_by};
ghost use Rattle.prem_lru.specs.CacheState.{view_of};
ghost use Rattle.prem_cycle.specs.Issue.{attempt_in};
ghost use Rattle.prem_machine.specs.Issue.Coming.{cost_at};
ghost use Rattle.prem_machine.specs.Wanted.{is_taking, takes_word};

use crate::issue::task::TaskCore;
use prem_isa::{
    DataLoad, Moving, Stored, Upshot, loading_of, moving_of, putting_of, storing_of, upshot_of,
};
use prem_lru::{Cache, Memory, Policy};
use prem_plant::Target;

/// The cost of the instruction of a word, if it is one.
#[inline(always)]
pub(crate) fn cost_at(word: u32) -> u32
    ensures cost { result ≡ cost_at (fields_of word) }
    ensures some { 1 ≤ result }
    ensures most { result ≤ 20 }
{
    let opcode = word & 0x7f;
    if opcode == 0b0110111 {
        1
    } else if opcode == 0b0010111 {
        1
    } else if opcode == 0b1101111 {
        2
    } else if opcode == 0b1100111 {
        2
    } else if opcode == 0b1100011 {
        2
    } else if opcode == 0b0000011 {
        2
    } else if opcode == 0b0100011 {
        2
    } else if opcode == 0b0010011 {
        1
    } else if opcode == 0b0110011 {
        operation_cost((word >> 12) & 7, word >> 25)
    } else {
        1
    }
}

/// That of an operation on two registers.
#[inline(always)]
fn operation_cost(funct3: u32, funct7: u32) -> u32
    ensures cost { result ≡ (if funct7 == 1 then (if funct3 == 0 then 4 else 20) else 1) }
    ensures some { 1 ≤ result }
    ensures most { result ≤ 20 }
{
    if funct7 == 1 {
        if funct3 == 0 { 4 } else { 20 }
    } else {
        1
    }
}

/// Whether an upshot is that of an instruction that takes an input word.
#[inline(always)]
fn is_taking(upshot: Upshot) -> bool
    ensures { result ≡ is_taking upshot }
{
    matches!(upshot, Upshot::Takes { .. })
}

impl TaskCore {
    /// What a word comes to that stands at the program counter.
    #[inline(always)]
    pub(crate) fn coming(&self, target: Target, size: u32, word: u32) -> Upshot
        requires { self.now.pc + 4 ≤ size }
        ensures outcome { (view : ℕ → ℕ) (input : ℕ) → told_by view self.now.pc input result
            ≡ act_of target size view (slice_index self.now.registers) self.now.pc self.now.phase input (decode_of word) }
        ensures fit { UpshotFits size result }
    {
        let hart = &self.hart;
        upshot_of(target, size, &hart.registers, hart.pc, hart.phase, word)
    }

    /// Whether its next instruction takes an input word. It touches nothing.
    #[inline(always)]
    pub(crate) fn takes_word<P: Policy>(&self, cache: &Cache<P>, mem: &Memory) -> bool
        requires { length mem.now ≡ cache.now.plant.memory }
        ensures { result
            ≡ takes_word (attempt_in cache.now.plant.target cache.now.plant.memory (view_of cache.now mem.now) self.now) }
    {
        let plant = cache.plant();
        let pc = self.pc();
        if u64::from(pc) + 4 > u64::from(plant.memory) {
            return false;
        }
        let word = cache.peek(mem, pc, 4);
        is_taking(self.coming(plant.target, plant.memory, word))
    }

    /// The same, if it only writes a register and goes on, and isn't a fence.
    #[inline(always)]
    pub(crate) fn moves(&self, target: Target, size: u32, word: u32) -> Option<Moving>
        requires { self.now.pc + 4 ≤ size }
        ensures outcome { IfSome result (λ m. (bytes : ℕ) (view : ℕ → ℕ) (phase : Phase) (input : ℕ) →
            told_by view self.now.pc input (Moves m.rd m.value m.next)
            ≡ act_of target bytes view (slice_index self.now.registers) self.now.pc phase input (decode_of word)) }
        ensures fit { IfSome result (λ m. m.rd < 32) }
    {
        let _size = size;
        moving_of(target, &self.hart.registers, self.hart.pc, word)
    }

    /// The same, if it loads.
    #[inline(always)]
    pub(crate) fn loads(&self, size: u32, word: u32) -> Option<DataLoad>
        requires { self.now.pc + 4 ≤ size }
        ensures outcome { IfSome result (λ l. (target : Target) (view : ℕ → ℕ) (phase : Phase) (input : ℕ) →
            told_by view self.now.pc input (Loads l.op l.rd l.address l.next)
            ≡ act_of target size view (slice_index self.now.registers) self.now.pc phase input (decode_of word)) }
        ensures fit { IfSome result (λ l. UpshotFits size (Loads l.op l.rd l.address l.next)) }
    {
        loading_of(size, &self.hart.registers, self.hart.pc, word)
    }

    /// The same, if it stores.
    #[inline(always)]
    pub(crate) fn stores(&self, size: u32, word: u32) -> Option<Stored>
        requires { self.now.pc + 4 ≤ size }
        ensures outcome { IfSome result (λ s. (target : Target) (view : ℕ → ℕ) (phase : Phase) (input : ℕ) →
            told_by view self.now.pc input (Stores s.address s.size s.value)
            ≡ act_of target size view (slice_index self.now.registers) self.now.pc phase input (decode_of word)) }
        ensures fit { IfSome result (λ s. UpshotFits size (Stores s.address s.size s.value)) }
    {
        storing_of(size, &self.hart.registers, self.hart.pc, word)
    }

    /// The word that it puts out, if it puts one out.
    #[inline(always)]
    pub(crate) fn puts(&self, word: u32) -> Option<u32>
        ensures outcome { IfSome result (λ out. (target : Target) (size : ℕ) (view : ℕ → ℕ) (pc : ℕ) (input : ℕ) →
            told_by view pc input (Puts out)
            ≡ act_of target size view (slice_index self.now.registers) pc self.now.phase input (decode_of word)) }
    {
        putting_of(&self.hart.registers, self.hart.phase, word)
    }
}
