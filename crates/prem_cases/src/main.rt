//! Trials of the libraries: what no contract says, and calls with ample memory.
//!
//! Each call, run or text is answered by a line. `stdout` has the lines as they were worked out by hand, or as other
//! tools give them.
#![tactic(auto)]

mod calls;
mod machine;
mod texts;

use std::io;

fn main(rt: HostRuntime) -> io::Result<()> {
    calls::tell(&rt)?;
    machine::tell(&rt)?;
    texts::tell(&rt)
}
