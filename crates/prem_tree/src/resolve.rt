//! Trees whose names are resolved.
mod program;
mod resolved;

pub use prem_names::Names;
pub use prem_syntax::Meaning;
pub use program::{
    binary_kind, functions_of, kind_of, operand_kind, promoted, resolve, resolve_term,
};
pub use resolved::{Operands, Resolved, Routine, Step, Term};
