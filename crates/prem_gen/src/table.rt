//! What calls of a task's functions need.
mod laws;
mod table;

pub use crate::routine::Callee;
pub use laws::{code_is_by_calls, table_tells_of_calls};
pub use table::{callees, first_global};
