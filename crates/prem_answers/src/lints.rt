// What `prem_lint` says of sources and sets in memory, one for each rule, and over a store or a sink that fails.
mod lines;
mod sets;
mod sources;

use std::io;
use std::rt::Files;

pub fn tell(rt: &(impl Print + Files + AllocGlobal)) -> io::Result<()> {
    sources::tell(rt)?;
    sets::tell(rt)
}
