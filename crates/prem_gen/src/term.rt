//! The code of expressions.
mod fail;
mod operator;
mod term;

pub use fail::{GenFail, TermFail, gen_fail};
pub use operator::{code_alone, nonzero, put_constant, put_local, put_scale, put_truth};
pub use prem_word::FnId;
pub use term::{put_term, term_alone, too_deep, truth_of};
