use crate::fault::CaseFault;
use mm_goto::{Bound, Model};
use std::alloc::Global;

/// Sizes, and the text that they must give.
#[derive(Clone, Copy)]
pub struct Case<'a> {
    pub threads: u32,
    pub cells: u32,
    pub model: Model,
    pub bound: Bound,
    pub text: &'a str,
}

fn number(word: &str) -> Result<u32, CaseFault> {
    word.parse().map_err(|_| CaseFault::NoForm)
}

fn model(word: &str) -> Result<Model, CaseFault> {
    match word {
        "tso" => Ok(Model::Tso),
        "pso" => Ok(Model::Pso),
        _ => Err(CaseFault::NoForm),
    }
}

// The numbers of threads and cells, from a line such as `/* 3 threads, 4 cells */`.
fn sizes(alloc: Global, line: &str) -> Result<(u32, u32), CaseFault> {
    let words: Vec<&str> = line.split_whitespace().collect(alloc)?;
    match words.as_slice() {
        ["/*", threads, "threads,", cells, "cells", "*/"] => Ok((number(threads)?, number(cells)?)),
        _ => Err(CaseFault::NoForm),
    }
}

// The model and the bound, from the first line of a woven text.
fn head(alloc: Global, line: &str) -> Result<(Model, Bound), CaseFault> {
    let words: Vec<&str> = line.split_whitespace().collect(alloc)?;
    match words.as_slice() {
        ["/*", "goto-mm", "1", name, bound, "*/"] => {
            let bound = Bound::new(number(bound)?).ok_or(CaseFault::NoForm)?;
            Ok((model(name)?, bound))
        }
        _ => Err(CaseFault::NoForm),
    }
}

impl Case<'_> {
    /// The case of a file: a line with the sizes, and then the text.
    pub fn read(alloc: Global, file: &str) -> Result<Case<'_>, CaseFault> {
        let (first, text) = file.split_once('\n').ok_or(CaseFault::NoForm)?;
        let (threads, cells) = sizes(alloc, first)?;
        let (second, _) = text.split_once('\n').ok_or(CaseFault::NoForm)?;
        let (model, bound) = head(alloc, second)?;
        Ok(Case {
            threads,
            cells,
            model,
            bound,
            text,
        })
    }
}
