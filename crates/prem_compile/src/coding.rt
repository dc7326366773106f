//! The tasks of a set with the plans and the code of their programs, and their parts.
mod parts;
mod tasks;

pub use parts::parts_of_tasks;
pub use prem_place::placing::CodedTask;
pub use prem_stages::Codes;
pub use tasks::coded_tasks;
