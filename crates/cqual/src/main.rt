//! The program `cqual`: its words, real files and standard output given to the tool.
#![tactic(auto)]

use cqual_tool::{Status, run};
use outside::{HostFiles, HostSink};
use std::env;
use std::io::ErrorKind;
use std::process::ExitCode;

/// Calls the tool on the words after the program's name, and exits with its status. Words of which one is no text have no
/// meaning, like no words.
fn main(rt: HostRuntime) -> ExitCode {
    let alloc = rt.alloc();
    let mut words = Vec::new(alloc);
    match env::args(&rt) {
        Ok(args) => {
            for word in args.skip(1) {
                if words.push(word).is_err() {
                    return ExitCode::from(Status::NoMemory.exit());
                }
            }
        }
        Err(error) => {
            if error.kind() == ErrorKind::OutOfMemory {
                return ExitCode::from(Status::NoMemory.exit());
            }
        }
    }
    let mut files = HostFiles::new(&rt);
    let mut out = HostSink::new(rt.stdout());
    ExitCode::from(run(alloc, &words, &mut files, &mut out).exit())
}
