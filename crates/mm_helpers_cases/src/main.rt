//! The buffer functions of the folder `data`: each text is worked by hand from the sizes in its first line, and must come
//! out as it is.
#![tactic(auto)]

mod case;
mod fault;
mod made;

use case::Case;
use made::text_of;
use std::{env, fs, io};

fn main(rt: HostRuntime) -> io::Result<()> {
    let mut cases = 0u64;
    let mut differ = 0u64;
    for name in env::args(&rt)?.skip(1) {
        let file = fs::read_to_string(&rt, &name)?;
        cases = cases.saturating_add(1);
        match Case::read(rt.alloc(), file.as_str()) {
            Ok(case) => match text_of(rt.alloc(), &case) {
                Ok(text) => {
                    if text.as_str() != case.text {
                        differ = differ.saturating_add(1);
                        println!(rt; "{name} comes out as\n{text}")?;
                    }
                }
                Err(fault) => {
                    differ = differ.saturating_add(1);
                    println!(rt; "{name} does not come out: {fault:?}")?;
                }
            },
            Err(fault) => {
                differ = differ.saturating_add(1);
                println!(rt; "{name} is no case: {fault:?}")?;
            }
        }
    }
    println!(rt; "{cases} cases, {differ} differ")
}
