//! The parts of a task: the start, the code of its functions, its stubs, globals and stack.
mod laws;
mod parts;
mod stack;

pub use laws::{parts_are_the_tasks, stacks_are_exact};
pub use parts::{push_areas, push_task};
pub use stack::stack_size;
