//! The program `dec`: its words, the real files and standard output go to the top call.
//!
//! It ends with the number of the status that the top call answers, with 7 where there is no memory for the words, or
//! with 8 where the system does not give them. No clause speaks of it: these few lines are the trusted edge.
#![tactic(auto)]

use ec_command::{Status, run};
use ec_edge::{HostFiles, HostOut};
use std::alloc::Global;
use std::process::ExitCode;
use std::rt::Env;
use std::{env, io};

/// The program's name and the words behind it.
fn words<R: Env + AllocGlobal>(rt: &R, alloc: Global) -> io::Result<Vec<String>> {
    Ok(env::args(rt)?.collect(alloc)?)
}

fn main(rt: HostRuntime) -> ExitCode {
    let alloc = rt.alloc();
    let words = match words(&rt, alloc) {
        Ok(words) => words,
        Err(e) if e.kind() == io::ErrorKind::OutOfMemory => {
            return ExitCode::from(Status::NoMemory.number());
        }
        Err(_) => return ExitCode::from(8),
    };
    let words = words.get(1..).unwrap_or(&[]);
    let mut files = HostFiles::new(&rt);
    let mut out = HostOut::new(&rt);
    ExitCode::from(run(alloc, words, &mut files, &mut out).number())
}
