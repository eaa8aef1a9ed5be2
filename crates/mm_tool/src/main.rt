//! goto-mm: the program.
#![tactic(auto)]

use mm_port::{StdSink, StdSource};
use mm_run::{Status, run};
use std::process::ExitCode;
use std::{env, io};

/// The words behind the program's name, or the status to end with where they cannot be had.
fn words(rt: &HostRuntime) -> Result<Vec<String>, Status> {
    let arguments = match env::args(rt) {
        Ok(arguments) => arguments,
        Err(error) if error.kind() == io::ErrorKind::OutOfMemory => return Err(Status::NoMemory),
        Err(_) => return Err(Status::Words),
    };
    let mut words = Vec::new(rt.alloc());
    for word in arguments.skip(1) {
        words.push(word).map_err(|_| Status::NoMemory)?;
    }
    Ok(words)
}

fn main(rt: HostRuntime) -> ExitCode {
    let status = match words(&rt) {
        Ok(words) => {
            let mut input = StdSource::new(rt.stdin());
            let mut output = StdSink::new(io::writer(&rt));
            run(rt.alloc(), &words, &mut input, &mut output)
        }
        Err(status) => status,
    };
    ExitCode::from(status.number())
}
