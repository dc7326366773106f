//! The line table: for each word of a task's code the line of the source to which it belongs.
mod laws;
mod marks;
mod routine;
mod step;
mod task;
mod term;

pub use laws::{lines_are_for_words, tables_are_of_functions};
pub use marks::mark_lines;
pub use routine::routine_lines;
pub use task::{TaskLines, part_lines, task_lines};
