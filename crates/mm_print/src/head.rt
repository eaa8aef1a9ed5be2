ghost use Rattle.std.specs.Prelude.{◌≡◌, ◌++◌, OnOk, string_bytes};
ghost use Rattle.std.specs.Fmt.{decimal};
ghost use Rattle.std.specs.List.{flat_map};
ghost use Rattle.mm_print.specs.HeadLines.{first_line, site_text, place_text, note_line, head_lines};

use mm_goto::text::{put, put_number};
use mm_goto::{Head, NoMemory, Note};
use std::alloc::Global;

// A number behind a text.
fn put_with(alloc: Global, out: &mut String, before: &str, n: u32) -> Result<(), NoMemory>
    ensures { OnOk result (string_bytes out.new ≡ string_bytes out.old ++ before.now ++ decimal n) }
{
    put(out, before)?;
    put_number(alloc, out, u64::from(n))
}

#[tactic(auto, unfolding(crate::specs::HeadLines::first_line))]
fn put_first(alloc: Global, out: &mut String, head: &Head) -> Result<(), NoMemory>
    ensures { OnOk result (string_bytes out.new ≡ string_bytes out.old ++ first_line head.now) }
{
    put(out, "/* goto-mm 1 ")?;
    put(out, head.model.word())?;
    put_with(alloc, out, " ", head.bound.get())?;
    put(out, " */\n")
}

fn put_sites(alloc: Global, out: &mut String, sites: &[u32]) -> Result<(), NoMemory>
    ensures { OnOk result (string_bytes out.new ≡ string_bytes out.old ++ flat_map site_text sites.now) }
{
    for site in sites {
        put_with(alloc, out, " #", *site)?;
    }
    Ok(())
}

#[tactic(auto, unfolding(crate::specs::HeadLines::place_text))]
fn put_place(alloc: Global, out: &mut String, note: &Note) -> Result<(), NoMemory>
    ensures { OnOk result (string_bytes out.new ≡ string_bytes out.old ++ place_text note.now) }
{
    put_with(alloc, out, " T", note.thread)?;
    put_with(alloc, out, " ", note.at.line)?;
    put_with(alloc, out, ":", note.at.column)
}

#[tactic(auto, unfolding(crate::specs::HeadLines::note_line))]
fn put_note(alloc: Global, out: &mut String, note: &Note) -> Result<(), NoMemory>
    ensures { OnOk result (string_bytes out.new ≡ string_bytes out.old ++ note_line note.now) }
{
    put_with(alloc, out, "/* buffered #", note.site)?;
    put_place(alloc, out, note)?;
    put(out, " cycle")?;
    put_sites(alloc, out, note.cycle.items())?;
    put(out, " */\n")
}

fn put_notes(alloc: Global, out: &mut String, notes: &[Note]) -> Result<(), NoMemory>
    ensures { OnOk result (string_bytes out.new ≡ string_bytes out.old ++ flat_map note_line notes.now) }
{
    for note in notes {
        put_note(alloc, out, note)?;
    }
    Ok(())
}

/// Writes the lines before the items.
#[tactic(auto, unfolding(crate::specs::HeadLines::head_lines))]
pub fn put_head(alloc: Global, out: &mut String, head: &Head) -> Result<(), NoMemory>
    ensures { OnOk result (string_bytes out.new ≡ string_bytes out.old ++ head_lines head.now) }
{
    put_first(alloc, out, head)?;
    put_notes(alloc, out, head.notes.items())?;
    put(out, "#include <pthread.h>\n")
}
