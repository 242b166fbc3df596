//! The program: the top call over the system's files and the standard output.
#![tactic(auto)]

use bed_io::{Failed, Host, RealFiles, RealSink, Sink};
use bed_top::{Status, top};
use std::alloc::AllocError;
use std::env;
use std::io::ErrorKind;
use std::process::ExitCode;
use std::rt::{Env, Files as FileSystem};

/// The words after the program's name. Where the system doesn't give them as text, there are none.
fn words(rt: &(impl Env + AllocGlobal)) -> Result<Vec<String>, AllocError> {
    let alloc = rt.alloc();
    let mut words = Vec::new(alloc);
    match env::args(rt) {
        Ok(args) => {
            for word in args.skip(1) {
                words.push(word)?;
            }
        }
        Err(error) => {
            if error.kind() == ErrorKind::OutOfMemory {
                return Err(AllocError);
            }
        }
    }
    Ok(words)
}

/// Makes the files, the sink and the hosts, and gives the words to the top call.
fn run<R: FileSystem + Print + Env + AllocGlobal>(rt: &R) -> Result<u8, AllocError> {
    let alloc = rt.alloc();
    let words = words(rt)?;
    let hosts: Vec<Box<dyn Host>> = Vec::new(alloc);
    let mut files = RealFiles::new(rt);
    let mut out = RealSink::new(rt);
    Ok(top(alloc, &words, &mut files, &mut out, hosts).code())
}

/// Where there is no memory for the call: puts the line of that, and gives its exit status.
fn want_of_memory<R: Print>(rt: &R) -> u8 {
    match RealSink::new(rt).put(b"want of memory\n") {
        Ok(()) => Status::Memory.code(),
        Err(Failed) => Status::WriteFault { sink: true }.code(),
    }
}

fn main(rt: HostRuntime) -> ExitCode {
    match run(&rt) {
        Ok(code) => ExitCode::from(code),
        Err(AllocError) => ExitCode::from(want_of_memory(&rt)),
    }
}
