//! The code of the functions of a resolved program.
mod generator;
mod laws;
mod loops;

pub use crate::table::callees;
pub use crate::term::{FnId, GenFail};
pub use generator::{code_at, codes, function_code};
pub use laws::{callees_fit_where_all_do, well_formed_programs_are_small};
