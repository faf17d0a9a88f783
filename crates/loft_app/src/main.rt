//! Runs programs of fair threads, and reports what they did.
#![tactic(auto)]

use loft_base::{Failed, HostFiles, HostSink, OpenGate};
use loft_top::{Status, loft_main};
use std::io::ErrorKind;
use std::process::ExitCode;
use std::rt::Env;
use std::{env, io};

/// The words after the program's name; none where one isn't UTF-8, since no command has such a word.
fn arguments<R: Env + AllocGlobal>(rt: &R) -> io::Result<Vec<String>> {
    let mut words = Vec::new(rt.alloc());
    let given = match env::args(rt) {
        Err(error) if error.kind() == ErrorKind::InvalidData => return Ok(words),
        given => given?,
    };
    for word in given.skip(1) {
        words.push(word)?;
    }
    Ok(words)
}

fn main(rt: HostRuntime) -> ExitCode {
    let Ok(words) = arguments(&rt) else {
        return ExitCode::from(Status::NoMemory.code());
    };
    let Ok(mut sink) = HostSink::new(rt.alloc(), &rt) else {
        return ExitCode::from(Status::NoMemory.code());
    };
    let mut files = HostFiles::new(&rt);
    let status = loft_main(
        &rt,
        rt.alloc(),
        words.as_slice(),
        &mut files,
        &mut sink,
        &OpenGate,
    );
    let ended = match sink.finish() {
        Ok(()) => status,
        Err(Failed) => Status::SinkFault,
    };
    ExitCode::from(ended.code())
}
