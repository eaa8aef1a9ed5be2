//! The names of locals, labels and threads, which all begin with `wm_`.
ghost use Rattle.std.specs.Prelude.{◌≡◌, IfOk};
ghost use Rattle.mm_templates.specs.Names as names;

use mm_goto::{Ident, NoMemory};
use mm_words::numbered;
use std::alloc::Global;

/// The name of a local.
pub fn local_name(alloc: Global, l: u32) -> Result<Ident, NoMemory>
    ensures { IfOk result (λ name. name ≡ names.local_name l) }
{
    numbered(alloc, "wm_r", l)
}

/// The label of an instruction, by its place in its thread.
pub fn label_name(alloc: Global, i: u32) -> Result<Ident, NoMemory>
    ensures { IfOk result (λ name. name ≡ names.label_name i) }
{
    numbered(alloc, "wm_", i)
}

/// The variable that holds a thread.
pub fn handle_name(alloc: Global, u: u32) -> Result<Ident, NoMemory>
    ensures { IfOk result (λ name. name ≡ names.handle_name u) }
{
    numbered(alloc, "wm_t", u)
}

/// The function of a thread.
pub fn thread_name(alloc: Global, u: u32) -> Result<Ident, NoMemory>
    ensures { IfOk result (λ name. name ≡ names.thread_name u) }
{
    numbered(alloc, "wm_thread", u)
}
