//! The trees of the source language, its syntax as plain data, what its programs mean, and the rules of well-formed ones.
#![tactic(auto)]

mod copy;
mod meaning;
mod name;
mod rules;
mod tree;
mod words;

pub use copy::copy_name;
pub use meaning::Meaning;
pub use name::Name;
pub use prem_list::Sequence;
pub use prem_word::{BinOp, Kind};
pub use rules::{Count, TypeRule};
pub use tree::{
    Expr, ForNames, Function, Global, Initial, Item, Local, Mark, Param, Place, Program, Region,
    Stmt, Ty, UnOp,
};
pub use words::have_words;
