// Hostile use: answers of the program to broken files, to hostile images, and to stores and sinks that fail.
//
// Each line of these files in `data` builds a file or asks for answers, as `src/hostile/building.rt` and
// `src/hostile/answering.rt` say. `src/hostile/calls.rt` has calls whose answers no command passes on. Their lines in `stdout`
// come from another model of images, runs and machines, or were worked out by hand.

mod answering;
mod building;
mod calls;

use crate::hostile::building::BuiltFiles;
use std::rt::Files;
use std::{fs, io};

/// The answers, one after another.
pub fn tell(rt: &(impl Print + Files + AllocGlobal)) -> io::Result<()> {
    calls::tell(rt, rt.alloc())?;
    let mut bench = BuiltFiles::new(rt.alloc());
    for name in ["images.txt", "outside.txt", "rules.txt", "large.txt"] {
        let file = fs::read_to_string(rt, name)?;
        for line in file.lines() {
            if !bench.take_line(rt.alloc(), line)? {
                answering::tell(rt, &bench.files, line)?;
            }
        }
    }
    Ok(())
}
