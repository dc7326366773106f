//! The code of functions.
mod frames;
mod routine;
mod single;
mod steps;
mod task;

pub use crate::term::{FnId, GenFail};
pub use frames::frame;
pub use routine::code_of;
pub use single::put_call;
pub use steps::{put_step, put_steps};
pub use task::{Callee, Numbers, Task};
