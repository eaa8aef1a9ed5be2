//! The woven texts of the folder `data`: each is read, and printed from its tree and its first lines. It must come out as it is.
#![tactic(auto)]

mod fault;
mod heading;
mod printing;

use printing::printed_again;
use std::{env, fs, io};

fn main(rt: HostRuntime) -> io::Result<()> {
    let mut texts = 0u64;
    let mut differ = 0u64;
    for name in env::args(&rt)?.skip(1) {
        let text = fs::read_to_string(&rt, &name)?;
        texts = texts.saturating_add(1);
        match printed_again(rt.alloc(), text.as_str()) {
            Ok(again) => {
                if again.as_str() != text.as_str() {
                    differ = differ.saturating_add(1);
                    println!(rt; "{name} is printed as\n{again}")?;
                }
            }
            Err(fault) => {
                differ = differ.saturating_add(1);
                println!(rt; "{name} is not printed: {fault:?}")?;
            }
        }
    }
    println!(rt; "{texts} texts, {differ} differ")
}
