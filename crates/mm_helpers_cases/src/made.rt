use crate::case::Case;
use crate::fault::CaseFault;
use mm_goto::{Head, List};
use mm_helpers::{arrays, helpers};
use mm_print::print;
use mm_tree::Tree;
use std::alloc::Global;

/// The arrays and the helpers of the case's sizes, as they are printed.
pub fn text_of(alloc: Global, case: &Case) -> Result<String, CaseFault> {
    if case.threads > 16 || case.cells > 256 {
        return Err(CaseFault::TooLarge);
    }
    let mut items = arrays(alloc, case.threads, case.cells, case.model, case.bound)?;
    for item in helpers(alloc, case.threads, case.cells, case.model, case.bound)? {
        items.push(item)?;
    }
    let tree = Tree {
        items: List::new(items),
    };
    let head = Head {
        model: case.model,
        bound: case.bound,
        notes: List::new(Vec::new(alloc)),
    };
    Ok(print(alloc, &tree, &head)?)
}
