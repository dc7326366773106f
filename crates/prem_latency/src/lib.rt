//! How long the requests of devices wait at most, proved of every run of the cycle machine.
//!
//! - `wait_length`: the busy period of the bus: how long a request of a device waits at most; `search_wait` also tells in how many
//!   turns it was found.
//! - Sets that break no rule go by what their jobs take at most, where each line that has room in the cache is counted once.
//! - Laws on a timeline of the bus, on the runs of the machine, on images whose tasks' instructions are parted into
//!   scopes, and on sets that break no rule.
#![tactic(auto)]

mod laws;
mod wait;
mod wcet;

pub use laws::{
    calls_open_and_close, charged_tasks_close, charged_tasks_wait, first_devices_are_served,
    images_serve_devices, jobs_keep_closed, joined_images_serve_devices, requests_are_served,
    requests_end_in_time, scripts_serve_in_time, sets_serve_devices, waits_are_bounded,
    waits_are_enough,
};
pub use wait::{Asking, Closing, Search, requests_in, search_wait, top, wait_length};
pub use wcet::{
    course_jobs_are_charged, courses_are_strands, divisions_are_partings, jobs_go,
    placed_jobs_course, placed_quiet_jobs_divide, placed_tasks_stand, sets_go_by_wcet,
    tasks_go_by_wcet,
};
