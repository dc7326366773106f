//! Pictures of runs, as texts of SVG files, and the answer of the program `prem_chart` to its words.
#![tactic(auto)]

mod answer;
mod axis;
mod bars;
mod head;
mod keeping;
mod laws;
mod note;
mod phases;
mod picture;
mod placing;
mod promises;
mod rows;
mod shapes;
mod text;
mod top;
mod tracing;
mod view;
mod words;

pub use laws::promises_are_kept;
pub use note::Note;
pub use picture::chart;
pub use placing::{is_inside, place};
pub use prem_answer::Status;
pub use shapes::{push_intervals, push_transfers};
pub use top::draw;
pub use tracing::{Traced, trace};
pub use view::{Bar, Canvas, Look, View};
