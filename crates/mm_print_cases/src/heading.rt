//! The first lines of a woven text, read.
use crate::fault::TextFault;
use mm_goto::{At, Bound, Head, List, Model, Note};
use std::alloc::Global;

// The number behind a mark, such as 6 in `#6`.
fn number(word: &str, mark: &str) -> Result<u32, TextFault> {
    let digits = word.strip_prefix(mark).ok_or(TextFault::NoHead)?;
    digits.parse().map_err(|_| TextFault::NoHead)
}

fn model(word: &str) -> Result<Model, TextFault> {
    match word {
        "tso" => Ok(Model::Tso),
        "pso" => Ok(Model::Pso),
        _ => Err(TextFault::NoHead),
    }
}

// What stands between the marks of a comment.
fn comment(line: &str) -> Result<&str, TextFault> {
    let rest = line.strip_prefix("/* ").ok_or(TextFault::NoHead)?;
    rest.strip_suffix(" */").ok_or(TextFault::NoHead)
}

fn first(line: &str) -> Result<(Model, Bound), TextFault> {
    let words = comment(line)?;
    let words = words.strip_prefix("goto-mm 1 ").ok_or(TextFault::NoHead)?;
    let (name, bound) = words.split_once(' ').ok_or(TextFault::NoHead)?;
    let bound = Bound::new(number(bound, "")?).ok_or(TextFault::NoHead)?;
    Ok((model(name)?, bound))
}

fn place(word: &str) -> Result<At, TextFault> {
    let (line, column) = word.split_once(':').ok_or(TextFault::NoHead)?;
    Ok(At {
        line: number(line, "")?,
        column: number(column, "")?,
    })
}

fn cycle(alloc: Global, words: &str) -> Result<List<u32>, TextFault> {
    let mut sites = Vec::new(alloc);
    for word in words.split(' ') {
        sites.push(number(word, "#")?)?;
    }
    Ok(List::new(sites))
}

fn note(alloc: Global, line: &str) -> Result<Note, TextFault> {
    let words = comment(line)?
        .strip_prefix("buffered ")
        .ok_or(TextFault::NoHead)?;
    let (site, words) = words.split_once(' ').ok_or(TextFault::NoHead)?;
    let (thread, words) = words.split_once(' ').ok_or(TextFault::NoHead)?;
    let (at, words) = words.split_once(' ').ok_or(TextFault::NoHead)?;
    let sites = words.strip_prefix("cycle ").ok_or(TextFault::NoHead)?;
    Ok(Note {
        site: number(site, "#")?,
        thread: number(thread, "T")?,
        at: place(at)?,
        cycle: cycle(alloc, sites)?,
    })
}

/// What the text says of itself in its first lines.
pub fn head(alloc: Global, text: &str) -> Result<Head, TextFault> {
    let mut lines = text.lines();
    let (model, bound) = first(lines.next().ok_or(TextFault::NoHead)?)?;
    let mut notes = Vec::new(alloc);
    for line in lines.take_while(|line| line.starts_with("/* ")) {
        notes.push(note(alloc, line)?)?;
    }
    Ok(Head {
        model,
        bound,
        notes: List::new(notes),
    })
}
