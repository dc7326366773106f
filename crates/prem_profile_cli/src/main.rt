//! The program `prem_profile`: its words, the computer's files and its standard output.
#![tactic(auto)]

use prem_io::{DiskStore, OutSink, words_of};
use prem_profile::profiles;
use std::process::ExitCode;

fn main(rt: HostRuntime) -> ExitCode {
    match words_of(&rt) {
        Ok(words) => {
            let mut store = DiskStore::new(&rt);
            let mut sink = OutSink::new(&rt);
            ExitCode::from(profiles(rt.alloc(), &words, &mut store, &mut sink).code())
        }
        Err(fault) => ExitCode::from(fault.code()),
    }
}
