//! The worked examples of the folder `data`: words and an input, and the status and the output that `run` must give.
#![tactic(auto)]

mod case;
mod fault;
mod outside;
mod suite;
mod text;

use std::{env, fs, io};
use suite::{Counts, run_file};

fn main(rt: HostRuntime) -> io::Result<()> {
    let mut counts = Counts {
        cases: 0,
        differ: 0,
    };
    for name in env::args(&rt)?.skip(1) {
        let text = fs::read_to_string(&rt, &name)?;
        run_file(&rt, name.as_str(), text.as_str(), &mut counts)?;
    }
    println!(rt; "{} cases, {} differ", counts.cases, counts.differ)
}
