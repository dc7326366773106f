//! Laws on runs of the cycle machine: what each keeps to, whatever the tasks and devices do.
//!
//! - `dull`: dull cycles, in which nothing but time goes on: what they are, and what so many of them come to.
//! - `inputs`: input words that come while a run goes on: the machine's state is that of the run which has them from
//!   the start.
//! - `position`: the instructions that the machine executes are those of each task's run on its own, and the run of
//!   one task ends in time.
//! - `transfer`: each transfer of a run takes the cycles of its device, from its first cycle on.
//! - `window`: transfers lie inside windows, and no transfer is carried while an instruction issues outside an
//!   execution phase.
pub mod dull;
pub mod inputs;
pub mod position;
pub mod transfer;
pub mod window;
