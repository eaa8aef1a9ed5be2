//! Run graphs of small runs: of each case in the files, its program, machine and schedule, the graph as text.
#![tactic(auto)]

mod carrying;
mod case;
mod program;
mod show;

use case::show_case;
use std::{env, fs, io};

/// Shows the cases of a file, which lines `====` part.
fn show_file<R: Print + AllocGlobal>(rt: &R, text: &str) -> io::Result<()> {
    for case in text.split("====\n") {
        show_case(rt, case)?;
    }
    Ok(())
}

fn main(rt: HostRuntime) -> io::Result<()> {
    for name in env::args(&rt)?.skip(1) {
        let text = fs::read_to_string(&rt, &name)?;
        show_file(&rt, text.as_str())?;
    }
    Ok(())
}
