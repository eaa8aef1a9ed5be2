ghost use Rattle.std.specs.Prelude.{◌≡◌, IfOk};

use mm_goto::{List, NoMemory};
use std::alloc::Global;

/// The same flags.
fn copy_row(alloc: Global, row: &List<bool>) -> Result<List<bool>, NoMemory>
    ensures { IfOk result (λ copy. copy ≡ row.now) }
{
    let row = row.items();
    let mut copy = Vec::with_capacity(alloc, row.len())?;
    copy.extend_from_slice(row)?;
    Ok(List::new(copy))
}

/// The same flags for each thread.
pub fn copy_flags(alloc: Global, flags: &List<List<bool>>) -> Result<List<List<bool>>, NoMemory>
    ensures { IfOk result (λ copy. copy ≡ flags.now) }
{
    let mut copy = Vec::with_capacity(alloc, flags.items().len())?;
    for row in flags.items() {
        copy.push(copy_row(alloc, row)?)?;
    }
    Ok(List::new(copy))
}
