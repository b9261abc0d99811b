//! The program `melt`: plays what its words mean on the files of a real machine.
//!
//! All that it does stands in `melt_run`; here the words are fetched and the exit status is given.
#![tactic(auto)]

use melt_run::{Free, melt};
use mlt_host::{DiskHost, SystemDisk};
use std::process::ExitCode;
use std::{env, io};

/// Tells why the words cannot be had, and gives the exit status: that of words that are refused, or that
/// of want of memory.
fn without_words(rt: &impl Eprint, why: io::ErrorKind) -> ExitCode {
    if why == io::ErrorKind::OutOfMemory {
        let _ = eprintln!(rt; "melt: out of memory");
        return ExitCode::from(4);
    }
    let _ = eprintln!(rt; "melt: the words are not all text");
    ExitCode::from(1)
}

fn main(rt: HostRuntime) -> ExitCode {
    let mut arguments = match env::args(&rt) {
        Ok(arguments) => arguments,
        Err(error) => return without_words(&rt, error.kind()),
    };
    let _program = arguments.next();
    let Ok(words) = arguments.collect::<Vec<String>>(rt.alloc()) else {
        return without_words(&rt, io::ErrorKind::OutOfMemory);
    };
    let stdout = rt.stdout();
    let stderr = rt.stderr();
    let alloc = rt.alloc();
    let mut host = DiskHost::new(SystemDisk::new(rt), stdout, stderr);
    let status = melt(&(), alloc, words.as_slice(), &mut host, &Free);
    ExitCode::from(status.code())
}
