// What a word does: decoded and executed at once.

ghost use Rattle.std.specs.Prelude.{◌≡◌, ℕ, ◌≤◌, ◌<◌, ◌+◌, ◌*◌, ◌^◌, IfSome, slice_index, option_map};
ghost use Rattle.prem_isa.specs.declared.step.Moving.{Moving};
ghost use Rattle.prem_isa.specs.declared.step.Upshot.TheVariants.{Loads, Moves, Puts, Stores};
ghost use Rattle.prem_plant.specs.declared.plant.Target.{Target};
ghost use Rattle.prem_isa.specs.declared.instr.Instr.TheVariants.{Branch, Load, Store, MulDiv};
ghost use Rattle.prem_isa.specs.declared.effect.Phase.{Phase};
ghost use Rattle.prem_isa.specs.Fields.{FieldsFit, fields_of, signed, imm_b, imm_i, imm_j, imm_s, imm_u};
ghost use Rattle.prem_isa.specs.Codes.{branch_op, load_op, store_op, low_op, muldiv_op};
ghost use Rattle.prem_isa.specs.Decode.{op_imm, operation, system, custom, instr_of, decode_of};
ghost use Rattle.prem_isa.specs.Alu.{word_of_int};
ghost use Rattle.prem_isa.specs.Act.{sets, jumps, in_phase};
ghost use Rattle.prem_isa.specs.Step.{act_of, told_by, UpshotFits, registers_moved, pc_moved};

use crate::effect::{Cause, DataLoad, Phase, Stored};
use crate::execution::misplaced;
use crate::fields::Fields;
use crate::instr::{AluOp, BranchOp, LoadOp, MulDivOp, StoreOp};
use crate::registers::set_register;
use prem_plant::Target;

/// What comes of a word at a place. An instruction that isn't a jump, a branch or a load goes on behind itself.
#[derive(Clone, Copy, PartialEq, Eq, Debug)]
pub enum Upshot {
    /// It traps, and changes nothing.
    Traps(Cause),
    /// It writes a register, of which 0 writes nothing, and goes on; that is all.
    Moves {
        rd: u8,
        value: u32,
        next: u32,
    },
    /// It loads.
    Loads {
        op: LoadOp,
        rd: u8,
        address: u32,
        next: u32,
    },
    /// It stores.
    Stores {
        address: u32,
        size: u32,
        value: u32,
    },
    /// `pm.mem`: the interval ends, and the next one begins in its memory phase.
    Begins,
    /// `pm.exec`: the execution phase begins; `stated` is the interval's length in cycles.
    Executes {
        stated: u32,
    },
    /// `pm.end`: the predictable interval ends.
    Ends,
    /// `pm.done`: the interval and the job end.
    Finishes,
    /// It takes an input word.
    Takes {
        rd: u8,
    },
    /// It puts a word out.
    Puts {
        word: u32,
    },
}

/// A word's instruction is done in place where it only writes a register and goes on. Of any other word the answer tells
/// what it comes to, and nothing changes.
///
/// Condition: the word's four bytes lie in a memory of `size` bytes.
pub fn step_word(
    target: Target,
    size: u32,
    registers: &mut [u32; 32],
    pc: &mut u32,
    phase: Phase,
    word: u32,
) -> Upshot
    requires place { pc.old + 4 ≤ size }
    ensures outcome { (view : ℕ → ℕ) (input : ℕ) → told_by view pc.old input result
        ≡ act_of target size view (slice_index registers.old) pc.old phase input (decode_of word) }
    ensures fit { UpshotFits size result }
    ensures registers { registers.new ≡ registers_moved result registers.old }
    ensures pc { pc.new ≡ pc_moved result pc.old }
{
    let upshot = upshot_of(target, size, registers, *pc, phase, word);
    if let Upshot::Moves { rd, value, next } = upshot {
        set_register(registers, rd, value);
        *pc = next;
    }
    upshot
}

/// What a word comes to.
#[inline(always)]
pub fn upshot_of(
    target: Target,
    size: u32,
    registers: &[u32; 32],
    pc: u32,
    phase: Phase,
    word: u32,
) -> Upshot
    requires place { pc + 4 ≤ size }
    ensures outcome { (view : ℕ → ℕ) (input : ℕ) → told_by view pc input result
        ≡ act_of target size view (slice_index registers.now) pc phase input (decode_of word) }
    ensures fit { UpshotFits size result }
{
    by_opcode(target, size, registers, pc, phase, word, Fields::of(word))
}

#[inline(always)]
fn by_opcode(
    target: Target,
    size: u32,
    registers: &[u32; 32],
    pc: u32,
    phase: Phase,
    word: u32,
    f: Fields,
) -> Upshot
    requires fields { FieldsFit f }
    requires same { f ≡ fields_of word }
    requires place { pc + 4 ≤ size }
    ensures outcome { (view : ℕ → ℕ) (input : ℕ) → told_by view pc input result
        ≡ act_of target size view (slice_index registers.now) pc phase input (instr_of f) }
    ensures fit { UpshotFits size result }
{
    let next = pc + 4;
    let rd = f.rd as u8;
    match f.opcode {
        0b0110111 => moved(next, rd, upper(word, f)),
        0b0010111 => moved(next, rd, pc.wrapping_add(upper(word, f))),
        0b1101111 => jumped(pc.wrapping_add(jump_offset(word, f)), rd, next),
        0b1100111 if f.funct3 == 0 => {
            let place = registers[f.rs1 as usize].wrapping_add(constant(word, f));
            jumped(place / 2 * 2, rd, next)
        }
        0b1100011 => branched(registers, pc, word, f),
        0b0000011 => loading(size, registers, pc, f, constant(word, f)),
        0b0100011 => storing(size, registers, pc, word, f),
        0b0010011 => with_constant(registers, next, f, constant(word, f)),
        0b0110011 => with_registers(target, registers, next, f),
        0b0001111 if f.funct3 == 0 => moved(next, 0, 0),
        0b1110011 => called(f),
        0b0001011 => marked(registers, phase, f),
        _ => Upshot::Traps(Cause::Decode),
    }
}

/// The constant of the format I as a word, at once from the word of these fields.
#[inline(always)]
fn constant(word: u32, f: Fields) -> u32
    requires { f ≡ fields_of word }
    ensures { result ≡ word_of_int (signed (2 ^ 11) (imm_i f)) }
{
    (word.cast_signed() >> 20).cast_unsigned()
}

/// The number of the upper bits of the format U in their place.
#[inline(always)]
fn upper(word: u32, f: Fields) -> u32
    requires { f ≡ fields_of word }
    ensures { result ≡ imm_u f * 2 ^ 12 }
{
    word >> 12 << 12
}

/// The offset of the format B as a word, at once from the word of these fields.
#[inline(always)]
fn branch_offset(word: u32, f: Fields) -> u32
    requires { f ≡ fields_of word }
    ensures { result ≡ word_of_int (signed (2 ^ 12) (imm_b f)) }
{
    let low = (word >> 7) % 32 / 2 * 2 + (word >> 25) % 64 * 32 + (word >> 7) % 2 * 2048;
    low.wrapping_sub((word >> 31) * 4096)
}

/// The offset of the format J as a word, at once from the word of these fields.
#[inline(always)]
fn jump_offset(word: u32, f: Fields) -> u32
    requires { f ≡ fields_of word }
    ensures { result ≡ word_of_int (signed (2 ^ 20) (imm_j f)) }
{
    let low = (word >> 20) % 2048 / 2 * 2 + (word >> 20) % 2 * 2048 + (word >> 12) % 256 * 4096;
    low.wrapping_sub((word >> 31) * 1048576)
}

/// The offset of the format S as a word, at once from the word of these fields.
#[inline(always)]
fn store_offset(word: u32, f: Fields) -> u32
    requires { f ≡ fields_of word }
    ensures { result ≡ word_of_int (signed (2 ^ 11) (imm_s f)) }
{
    let low = (word >> 7) % 32 + (word >> 25) % 64 * 32;
    low.wrapping_sub((word >> 31) * 2048)
}

#[inline(always)]
fn moved(next: u32, rd: u8, value: u32) -> Upshot
    requires { rd < 32 }
    ensures outcome { (view : ℕ → ℕ) (pc input : ℕ) → told_by view pc input result ≡ sets next rd value }
    ensures fit { (size : ℕ) → UpshotFits size result }
{
    Upshot::Moves { rd, value, next }
}

#[inline(always)]
fn jumped(target: u32, rd: u8, value: u32) -> Upshot
    requires { rd < 32 }
    ensures outcome { (view : ℕ → ℕ) (pc input : ℕ) → told_by view pc input result ≡ jumps target rd value }
    ensures fit { (size : ℕ) → UpshotFits size result }
{
    if target % 4 == 0 {
        moved(target, rd, value)
    } else {
        Upshot::Traps(Cause::Align)
    }
}

#[inline(always)]
fn branched(registers: &[u32; 32], pc: u32, word: u32, f: Fields) -> Upshot
    requires fields { FieldsFit f }
    requires same { f ≡ fields_of word }
    requires place { pc + 4 < 2 ^ 32 }
    ensures outcome { (target : Target) (size : ℕ) (view : ℕ → ℕ) (phase : Phase) (input : ℕ) → told_by view pc input result
        ≡ act_of target size view (slice_index registers.now) pc phase input
        (option_map (λ op. Branch op f.rs1 f.rs2 (signed (2 ^ 12) (imm_b f))) (branch_op f.funct3)) }
    ensures fit { (size : ℕ) → UpshotFits size result }
{
    let Some(op) = BranchOp::from_funct3(f.funct3) else {
        return Upshot::Traps(Cause::Decode);
    };
    if op.holds(registers[f.rs1 as usize], registers[f.rs2 as usize]) {
        jumped(pc.wrapping_add(branch_offset(word, f)), 0, 0)
    } else {
        moved(pc + 4, 0, 0)
    }
}

#[inline(always)]
fn loading(size: u32, registers: &[u32; 32], pc: u32, f: Fields, imm: u32) -> Upshot
    requires fields { FieldsFit f }
    requires imm { imm ≡ word_of_int (signed (2 ^ 11) (imm_i f)) }
    requires place { pc + 4 < 2 ^ 32 }
    ensures outcome { (target : Target) (view : ℕ → ℕ) (phase : Phase) (input : ℕ) → told_by view pc input result
        ≡ act_of target size view (slice_index registers.now) pc phase input
        (option_map (λ op. Load op f.rd f.rs1 (signed (2 ^ 11) (imm_i f))) (load_op f.funct3)) }
    ensures fit { UpshotFits size result }
{
    let Some(op) = LoadOp::from_funct3(f.funct3) else {
        return Upshot::Traps(Cause::Decode);
    };
    let address = registers[f.rs1 as usize].wrapping_add(imm);
    match misplaced(size, address, op.size()) {
        Some(cause) => Upshot::Traps(cause),
        None => Upshot::Loads {
            op,
            rd: f.rd as u8,
            address,
            next: pc + 4,
        },
    }
}

#[inline(always)]
fn storing(size: u32, registers: &[u32; 32], pc: u32, word: u32, f: Fields) -> Upshot
    requires fields { FieldsFit f }
    requires same { f ≡ fields_of word }
    requires place { pc + 4 < 2 ^ 32 }
    ensures outcome { (target : Target) (view : ℕ → ℕ) (phase : Phase) (input : ℕ) → told_by view pc input result
        ≡ act_of target size view (slice_index registers.now) pc phase input
        (option_map (λ op. Store op f.rs1 f.rs2 (signed (2 ^ 11) (imm_s f))) (store_op f.funct3)) }
    ensures fit { UpshotFits size result }
{
    let Some(op) = StoreOp::from_funct3(f.funct3) else {
        return Upshot::Traps(Cause::Decode);
    };
    let address = registers[f.rs1 as usize].wrapping_add(store_offset(word, f));
    let bytes = op.size();
    match misplaced(size, address, bytes) {
        Some(cause) => Upshot::Traps(cause),
        None => Upshot::Stores {
            address,
            size: bytes,
            value: registers[f.rs2 as usize],
        },
    }
}

#[inline(always)]
fn with_constant(registers: &[u32; 32], next: u32, f: Fields, imm: u32) -> Upshot
    requires fields { FieldsFit f }
    requires imm { imm ≡ word_of_int (signed (2 ^ 11) (imm_i f)) }
    requires place { 4 ≤ next }
    ensures outcome { (target : Target) (size : ℕ) (view : ℕ → ℕ) (pc : ℕ) (phase : Phase) (input : ℕ) → pc + 4 ≡ next → told_by view pc input result
        ≡ act_of target size view (slice_index registers.now) pc phase input (op_imm f (low_op f.funct3)) }
    ensures fit { (size : ℕ) → UpshotFits size result }
{
    let rd = f.rd as u8;
    let a = registers[f.rs1 as usize];
    match f.funct3 {
        0 => moved(next, rd, AluOp::Add.apply(a, imm)),
        1 if f.funct7 == 0 => moved(next, rd, AluOp::Sll.apply(a, f.rs2)),
        2 => moved(next, rd, AluOp::Slt.apply(a, imm)),
        3 => moved(next, rd, AluOp::Sltu.apply(a, imm)),
        4 => moved(next, rd, AluOp::Xor.apply(a, imm)),
        5 if f.funct7 == 0 => moved(next, rd, AluOp::Srl.apply(a, f.rs2)),
        5 if f.funct7 == 32 => moved(next, rd, AluOp::Sra.apply(a, f.rs2)),
        6 => moved(next, rd, AluOp::Or.apply(a, imm)),
        7 => moved(next, rd, AluOp::And.apply(a, imm)),
        _ => Upshot::Traps(Cause::Decode),
    }
}

#[inline(always)]
fn with_registers(target: Target, registers: &[u32; 32], next: u32, f: Fields) -> Upshot
    requires fields { FieldsFit f }
    ensures outcome { (size : ℕ) (view : ℕ → ℕ) (pc : ℕ) (phase : Phase) (input : ℕ) → pc + 4 ≡ next → told_by view pc input result
        ≡ act_of target size view (slice_index registers.now) pc phase input (operation f) }
    ensures fit { (size : ℕ) → UpshotFits size result }
{
    if f.funct7 == 1 {
        return extended(target, registers, next, f);
    }
    let Some(op) = AluOp::from_codes(f.funct3, f.funct7) else {
        return Upshot::Traps(Cause::Decode);
    };
    let value = op.apply(registers[f.rs1 as usize], registers[f.rs2 as usize]);
    moved(next, f.rd as u8, value)
}

/// An operation of the extension M.
fn extended(target: Target, registers: &[u32; 32], next: u32, f: Fields) -> Upshot
    requires fields { FieldsFit f }
    ensures outcome { (size : ℕ) (view : ℕ → ℕ) (pc : ℕ) (phase : Phase) (input : ℕ) → pc + 4 ≡ next → told_by view pc input result
        ≡ act_of target size view (slice_index registers.now) pc phase input
        (option_map (λ op. MulDiv op f.rd f.rs1 f.rs2) (muldiv_op f.funct3)) }
    ensures fit { (size : ℕ) → UpshotFits size result }
{
    let Some(op) = MulDivOp::from_funct3(f.funct3) else {
        return Upshot::Traps(Cause::Decode);
    };
    let value = op.apply(registers[f.rs1 as usize], registers[f.rs2 as usize]);
    match target {
        Target::Rv32i => Upshot::Traps(Cause::Decode),
        Target::Rv32im => moved(next, f.rd as u8, value),
    }
}

fn called(f: Fields) -> Upshot
    ensures outcome { (target : Target) (size : ℕ) (view registers : ℕ → ℕ) (pc : ℕ) (phase : Phase) (input : ℕ) → told_by view pc input result
        ≡ act_of target size view registers pc phase input (system f) }
    ensures fit { (size : ℕ) → UpshotFits size result }
{
    if f.rd != 0 || f.funct3 != 0 || f.rs1 != 0 || f.funct7 != 0 {
        return Upshot::Traps(Cause::Decode);
    }
    match f.rs2 {
        0 => Upshot::Traps(Cause::Ecall),
        1 => Upshot::Traps(Cause::Ebreak),
        _ => Upshot::Traps(Cause::Decode),
    }
}

#[inline(always)]
fn marked(registers: &[u32; 32], phase: Phase, f: Fields) -> Upshot
    requires { FieldsFit f }
    ensures outcome { (target : Target) (size : ℕ) (view : ℕ → ℕ) (pc : ℕ) (input : ℕ) → told_by view pc input result
        ≡ act_of target size view (slice_index registers.now) pc phase input (custom f) }
    ensures fit { (size : ℕ) → UpshotFits size result }
{
    if f.rs2 != 0 || f.funct7 != 0 {
        return Upshot::Traps(Cause::Decode);
    }
    match f.funct3 {
        0 if f.rd == 0 && f.rs1 == 0 => in_phase(Phase::Compatible, phase, Upshot::Begins),
        1 if f.rd == 0 => {
            let stated = registers[f.rs1 as usize];
            in_phase(Phase::Memory, phase, Upshot::Executes { stated })
        }
        2 if f.rd == 0 && f.rs1 == 0 => in_phase(Phase::Execution, phase, Upshot::Ends),
        3 if f.rd == 0 && f.rs1 == 0 => in_phase(Phase::Compatible, phase, Upshot::Finishes),
        4 if f.rs1 == 0 => in_phase(Phase::Compatible, phase, Upshot::Takes { rd: f.rd as u8 }),
        5 if f.rd == 0 => {
            let word = registers[f.rs1 as usize];
            in_phase(Phase::Compatible, phase, Upshot::Puts { word })
        }
        _ => Upshot::Traps(Cause::Decode),
    }
}

/// An upshot of one phase, in another.
#[inline(always)]
fn in_phase(lawful: Phase, phase: Phase, upshot: Upshot) -> Upshot
    ensures outcome { (view : ℕ → ℕ) (pc input : ℕ) → told_by view pc input result
        ≡ in_phase lawful phase (told_by view pc input upshot) }
    ensures fit { (size : ℕ) → UpshotFits size upshot → UpshotFits size result }
{
    if lawful == phase {
        upshot
    } else {
        Upshot::Traps(Cause::Phase)
    }
}

/// An instruction that only writes a register, of which 0 writes nothing, and goes on.
#[derive(Clone, Copy, PartialEq, Eq, Debug)]
pub struct Moving {
    pub rd: u8,
    pub value: u32,
    pub next: u32,
}

/// The upshot of a word, as one.
#[inline(always)]
fn as_moving(
    target: Target,
    registers: &[u32; 32],
    pc: u32,
    word: u32,
    upshot: Upshot,
) -> Option<Moving>
    requires outcome { (size : ℕ) (view : ℕ → ℕ) (phase : Phase) (input : ℕ) → (m : Moving) → upshot ≡ Moves m.rd m.value m.next
        → told_by view pc input upshot ≡ act_of target size view (slice_index registers.now) pc phase input (decode_of word) }
    requires fit { (size : ℕ) → UpshotFits size upshot }
    ensures outcome { IfSome result (λ m. (size : ℕ) (view : ℕ → ℕ) (phase : Phase) (input : ℕ) → told_by view pc input (Moves m.rd m.value m.next)
        ≡ act_of target size view (slice_index registers.now) pc phase input (decode_of word)) }
    ensures fit { IfSome result (λ m. m.rd < 32) }
{
    match upshot {
        Upshot::Moves { rd, value, next } => Some(Moving { rd, value, next }),
        _ => None,
    }
}

/// The opcode of a word.
#[inline(always)]
fn opcode_of(word: u32) -> u32
    ensures code { result ≡ (fields_of word).opcode }
{
    word & 0x7f
}

/// What a word comes to, if it only writes a register and goes on: as `upshot_of`, with the fields of each opcode alone.
#[inline(always)]
pub fn moving_of(target: Target, registers: &[u32; 32], pc: u32, word: u32) -> Option<Moving>
    requires place { pc + 4 < 2 ^ 32 }
    ensures outcome { IfSome result (λ m. (size : ℕ) (view : ℕ → ℕ) (phase : Phase) (input : ℕ) → told_by view pc input (Moves m.rd m.value m.next)
        ≡ act_of target size view (slice_index registers.now) pc phase input (decode_of word)) }
    ensures fit { IfSome result (λ m. m.rd < 32) }
{
    let next = pc + 4;
    match opcode_of(word) {
        0b0110111 => {
            let f = Fields::of(word);
            as_moving(
                target,
                registers,
                pc,
                word,
                moved(next, f.rd as u8, upper(word, f)),
            )
        }
        0b0010111 => {
            let f = Fields::of(word);
            as_moving(
                target,
                registers,
                pc,
                word,
                moved(next, f.rd as u8, pc.wrapping_add(upper(word, f))),
            )
        }
        0b1101111 => {
            let f = Fields::of(word);
            let place = pc.wrapping_add(jump_offset(word, f));
            as_moving(target, registers, pc, word, jumped(place, f.rd as u8, next))
        }
        0b1100111 => {
            let f = Fields::of(word);
            if f.funct3 != 0 {
                return None;
            }
            let place = registers[f.rs1 as usize].wrapping_add(constant(word, f));
            as_moving(
                target,
                registers,
                pc,
                word,
                jumped(place / 2 * 2, f.rd as u8, next),
            )
        }
        0b1100011 => {
            let f = Fields::of(word);
            as_moving(
                target,
                registers,
                pc,
                word,
                branched(registers, pc, word, f),
            )
        }
        0b0010011 => {
            let f = Fields::of(word);
            as_moving(
                target,
                registers,
                pc,
                word,
                with_constant(registers, next, f, constant(word, f)),
            )
        }
        0b0110011 => {
            let f = Fields::of(word);
            as_moving(
                target,
                registers,
                pc,
                word,
                with_registers(target, registers, next, f),
            )
        }
        _ => None,
    }
}

/// What a word comes to, if it loads.
#[inline(always)]
pub fn loading_of(size: u32, registers: &[u32; 32], pc: u32, word: u32) -> Option<DataLoad>
    requires place { pc + 4 < 2 ^ 32 }
    ensures outcome { IfSome result (λ l. (target : Target) (view : ℕ → ℕ) (phase : Phase) (input : ℕ) →
        told_by view pc input (Loads l.op l.rd l.address l.next) ≡ act_of target size view (slice_index registers.now) pc phase input (decode_of word)) }
    ensures fit { IfSome result (λ l. UpshotFits size (Loads l.op l.rd l.address l.next)) }
{
    if opcode_of(word) != 0b0000011 {
        return None;
    }
    let f = Fields::of(word);
    match loading(size, registers, pc, f, constant(word, f)) {
        Upshot::Loads {
            op,
            rd,
            address,
            next,
        } => Some(DataLoad {
            op,
            rd,
            address,
            next,
        }),
        _ => None,
    }
}

/// What a word comes to, if it stores.
#[inline(always)]
pub fn storing_of(size: u32, registers: &[u32; 32], pc: u32, word: u32) -> Option<Stored>
    requires place { pc + 4 < 2 ^ 32 }
    ensures outcome { IfSome result (λ s. (target : Target) (view : ℕ → ℕ) (phase : Phase) (input : ℕ) →
        told_by view pc input (Stores s.address s.size s.value) ≡ act_of target size view (slice_index registers.now) pc phase input (decode_of word)) }
    ensures fit { IfSome result (λ s. UpshotFits size (Stores s.address s.size s.value)) }
{
    if opcode_of(word) != 0b0100011 {
        return None;
    }
    match storing(size, registers, pc, word, Fields::of(word)) {
        Upshot::Stores {
            address,
            size,
            value,
        } => Some(Stored {
            address,
            size,
            value,
        }),
        _ => None,
    }
}

/// The word that a word puts out, if it puts one out.
#[inline(always)]
pub fn putting_of(registers: &[u32; 32], phase: Phase, word: u32) -> Option<u32>
    ensures outcome { IfSome result (λ out. (target : Target) (size : ℕ) (view : ℕ → ℕ) (pc : ℕ) (input : ℕ) →
        told_by view pc input (Puts out) ≡ act_of target size view (slice_index registers.now) pc phase input (decode_of word)) }
{
    if opcode_of(word) != 0b0001011 {
        return None;
    }
    match marked(registers, phase, Fields::of(word)) {
        Upshot::Puts { word } => Some(word),
        _ => None,
    }
}
