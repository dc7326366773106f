//! The instructions of the machine: RV32I, five of its extension M, and the six `pm` instructions, their words, costs and meaning.
#![tactic(auto)]

mod alu;
mod codes;
mod decoding;
mod effect;
mod encoding;
mod execution;
mod fields;
mod instr;
mod laws;
mod registers;
mod step;

pub use decoding::decode;
pub use effect::{
    Access, AccessKind, Cause, Change, DataLoad, Decision, Effect, Outcome, Phase, Stored,
};
pub use encoding::{cost, encode, fits};
pub use execution::execute;
pub use instr::{AluOp, BranchOp, Instr, LoadOp, MulDivOp, StoreOp};
pub use laws::{instructions_keep_bounds, instructions_read_their_bytes, runs_compose_and_fit};
pub use registers::{first_registers, set_register};
pub use step::{
    Moving, Upshot, loading_of, moving_of, putting_of, step_word, storing_of, upshot_of,
};
