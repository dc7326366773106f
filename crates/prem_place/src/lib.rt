//! Placed tasks: their code and content at the places of their parts, the rules that they break, and the image.
//!
//! - `build_image`: the image of a set of placed tasks.
//! - `content`: what memory holds at the start of a run: code and globals at their places.
//! - `flat`: the words of a task's code at its places, or the lowest part that has a jump out of reach.
//! - `imaging`: what memory holds at the start of a run of placed tasks.
//! - `placed`: tasks at their places: programs with the places of their parts, their plans and all their code.
//! - `placing`: tasks take the places of their parts, and their code has its words there, or a jump out of reach.
//! - `stand`: the parts of each task of a set have places at which their code may stand.
//! - `totals`: all outputs and intervals of a task set, and the cycle by which its jobs have ended.
//! - `verdict`: the rules on the lines, bounds and lengths of the marked functions of placed tasks.
//! - `words`: the words of placed tasks, or the first task that has a jump out of reach.
#![tactic(auto)]

pub mod build_image;
pub mod content;
pub mod flat;
pub mod imaging;
pub mod placed;
pub mod placing;
pub mod stand;
pub mod totals;
pub mod verdict;
pub mod words;
