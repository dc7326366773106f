// What one instruction does, but for the bytes of memory.

ghost use Rattle.std.specs.Prelude.{◌≡◌, ℕ, ◌≤◌, ◌<◌, ◌+◌, ◌*◌, slice_index, IfNone, if◌then◌else◌};
ghost use Rattle.prem_word.specs.Bytes.{number_at};
ghost use Rattle.prem_isa.specs.Decode.{Fits};
ghost use Rattle.prem_isa.specs.Alu.{load_size, store_size};
ghost use Rattle.prem_isa.specs.Act.{sets, jumps, trap_or, accesses, loads, stores, changes, takes, puts, in_phase, on_rv32im, act, outcome_in};
ghost use Rattle.prem_isa.specs.Bounds.{IsSize, IsPlaced, DecisionFits};
ghost use Rattle.prem_isa.specs.declared.effect.Outcome.{Outcome};

use crate::alu::offset_by;
use crate::effect::{Access, AccessKind, Cause, Change, DataLoad, Decision, Effect, Phase, Stored};
use crate::instr::{Instr, LoadOp, StoreOp};
use prem_plant::Target;

/// What an instruction does on a target in a memory of `size` bytes, from the registers, its place, the phase and
/// the word that a `pm.in` takes. Conditions: it fits, and its own four bytes lie in memory.
pub fn execute(
    target: Target,
    size: u32,
    registers: &[u32; 32],
    pc: u32,
    phase: Phase,
    input: u32,
    i: Instr,
) -> Decision
    requires fits { Fits i }
    requires place { pc + 4 ≤ size }
    ensures outcome { (view : ℕ → ℕ) → outcome_in view result ≡ act target size view (slice_index registers.now) pc phase input i }
    ensures fit { DecisionFits size result }
{
    let next = pc + 4;
    match i {
        Instr::Lui { rd, imm } => set(next, rd, imm << 12),
        Instr::Auipc { rd, imm } => set(next, rd, pc.wrapping_add(imm << 12)),
        Instr::Jal { rd, offset } => jump(offset_by(pc, offset), rd, next),
        Instr::Jalr { rd, rs1, offset } => {
            jump(offset_by(registers[rs1 as usize], offset) / 2 * 2, rd, next)
        }
        Instr::Branch {
            op,
            rs1,
            rs2,
            offset,
        } => {
            let is_taken = op.holds(registers[rs1 as usize], registers[rs2 as usize]);
            branch(next, offset_by(pc, offset), is_taken)
        }
        Instr::Load {
            op,
            rd,
            rs1,
            offset,
        } => {
            let address = offset_by(registers[rs1 as usize], offset);
            load(size, next, op, rd, address)
        }
        Instr::Store {
            op,
            rs1,
            rs2,
            offset,
        } => {
            let address = offset_by(registers[rs1 as usize], offset);
            store(size, next, op, address, registers[rs2 as usize])
        }
        Instr::OpImm { op, rd, rs1, imm } => {
            let value = op.apply(registers[rs1 as usize], imm.cast_unsigned());
            set(next, rd, value)
        }
        Instr::Op { op, rd, rs1, rs2 } => {
            let value = op.apply(registers[rs1 as usize], registers[rs2 as usize]);
            set(next, rd, value)
        }
        Instr::MulDiv { op, rd, rs1, rs2 } => {
            let value = op.apply(registers[rs1 as usize], registers[rs2 as usize]);
            extended(target, next, rd, value)
        }
        Instr::Fence { .. } => set(next, 0, 0),
        Instr::Ecall => Decision::Trap(Cause::Ecall),
        Instr::Ebreak => Decision::Trap(Cause::Ebreak),
        Instr::PmMem => change(next, Phase::Compatible, phase, Change::Memory),
        Instr::PmExec { rs1 } => {
            let stated = registers[rs1 as usize];
            change(next, Phase::Memory, phase, Change::Execute { stated })
        }
        Instr::PmEnd => change(next, Phase::Execution, phase, Change::End),
        Instr::PmDone => change(next, Phase::Compatible, phase, Change::Job),
        Instr::PmIn { rd } => take(next, phase, rd, input),
        Instr::PmOut { rs1 } => put(next, phase, registers[rs1 as usize]),
    }
}

fn set(next: u32, rd: u8, value: u32) -> Decision
    requires { rd < 32 }
    ensures outcome { (view : ℕ → ℕ) → outcome_in view result ≡ sets next rd value }
    ensures fit { (size : ℕ) → DecisionFits size result }
{
    Decision::Known(Effect {
        rd,
        value,
        ..Effect::going(next)
    })
}

/// An instruction of the extension M.
fn extended(target: Target, next: u32, rd: u8, value: u32) -> Decision
    requires { rd < 32 }
    ensures outcome { (view : ℕ → ℕ) → outcome_in view result ≡ on_rv32im target (sets next rd value) }
    ensures fit { (size : ℕ) → DecisionFits size result }
{
    match target {
        Target::Rv32i => Decision::Trap(Cause::Decode),
        Target::Rv32im => set(next, rd, value),
    }
}

fn jump(target: u32, rd: u8, value: u32) -> Decision
    requires { rd < 32 }
    ensures outcome { (view : ℕ → ℕ) → outcome_in view result ≡ jumps target rd value }
    ensures fit { (size : ℕ) → DecisionFits size result }
{
    if target % 4 == 0 {
        set(target, rd, value)
    } else {
        Decision::Trap(Cause::Align)
    }
}

fn branch(next: u32, target: u32, is_taken: bool) -> Decision
    ensures outcome { (view : ℕ → ℕ) → outcome_in view result ≡ (if is_taken then jumps target 0 0 else sets next 0 0) }
    ensures fit { (size : ℕ) → DecisionFits size result }
{
    if is_taken {
        jump(target, 0, 0)
    } else {
        set(next, 0, 0)
    }
}

fn load(size: u32, next: u32, op: LoadOp, rd: u8, address: u32) -> Decision
    requires { rd < 32 }
    ensures outcome { (view : ℕ → ℕ) → outcome_in view result ≡ accesses size address (load_size op) (loads next op rd address (number_at view address (load_size op))) }
    ensures fit { DecisionFits size result }
{
    match misplaced(size, address, op.size()) {
        Some(cause) => Decision::Trap(cause),
        None => Decision::Pending(DataLoad {
            op,
            rd,
            address,
            next,
        }),
    }
}

fn store(size: u32, next: u32, op: StoreOp, address: u32, value: u32) -> Decision
    ensures outcome { (view : ℕ → ℕ) → outcome_in view result ≡ accesses size address (store_size op) (stores next op address value) }
    ensures fit { DecisionFits size result }
{
    let bytes = op.size();
    if let Some(cause) = misplaced(size, address, bytes) {
        return Decision::Trap(cause);
    }
    let access = Access {
        kind: AccessKind::Stores,
        address,
        size: bytes,
    };
    let stored = Stored {
        address,
        size: bytes,
        value,
    };
    Decision::Known(Effect {
        access: Some(access),
        stored: Some(stored),
        ..Effect::going(next)
    })
}

/// Why an access can't be made, where it can't: alignment comes before the place.
pub(crate) fn misplaced(size: u32, address: u32, bytes: u32) -> Option<Cause>
    requires { IsSize bytes }
    ensures outcome { (done : Outcome) → accesses size address bytes done ≡ trap_or result done }
    ensures placed { IfNone result (IsPlaced size address bytes) }
{
    let is_outside = address as u64 + bytes as u64 > size as u64;
    match address % bytes {
        0 if is_outside => Some(Cause::Outside),
        0 => None,
        _ => Some(Cause::Align),
    }
}

fn change(next: u32, lawful: Phase, phase: Phase, change: Change) -> Decision
    ensures outcome { (view : ℕ → ℕ) → outcome_in view result ≡ in_phase lawful phase (changes next change) }
    ensures fit { (size : ℕ) → DecisionFits size result }
{
    if lawful != phase {
        return Decision::Trap(Cause::Phase);
    }
    Decision::Known(Effect {
        change,
        ..Effect::going(next)
    })
}

fn take(next: u32, phase: Phase, rd: u8, word: u32) -> Decision
    requires { rd < 32 }
    ensures outcome { (view : ℕ → ℕ) → outcome_in view result ≡ in_phase Phase.Compatible phase (takes next rd word) }
    ensures fit { (size : ℕ) → DecisionFits size result }
{
    if phase != Phase::Compatible {
        return Decision::Trap(Cause::Phase);
    }
    Decision::Known(Effect {
        rd,
        value: word,
        input: true,
        ..Effect::going(next)
    })
}

fn put(next: u32, phase: Phase, word: u32) -> Decision
    ensures outcome { (view : ℕ → ℕ) → outcome_in view result ≡ in_phase Phase.Compatible phase (puts next word) }
    ensures fit { (size : ℕ) → DecisionFits size result }
{
    if phase != Phase::Compatible {
        return Decision::Trap(Cause::Phase);
    }
    Decision::Known(Effect {
        output: Some(word),
        ..Effect::going(next)
    })
}
