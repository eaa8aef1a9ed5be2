ghost use Rattle.std.specs.Prelude.{◌≡◌, ◌<◌, All, IfOk, length, map, string_bytes};
ghost use Rattle.serde_json.specs.View.{view};
ghost use Rattle.mm_goto.specs.Sites.{sites};
ghost use Rattle.mm_graph.specs.Graphs.{IsGraphOf};
ghost use Rattle.mm_report.specs.Reports.{AreReported, IsReport, list_data, note_data, object_of, report_of};

use crate::cells::{names, numbers};
use mm_goto::{Cell, Head, NoMemory, Note, Program};
use mm_graph::Graph;
use serde_json::{Value, json};
use std::alloc::{AllocError, Global};

fn note_object(alloc: Global, cells: Value, cycle: Value, note: &Note) -> Result<Value, AllocError>
    ensures { IfOk result (λ v. view v ≡ object_of (view cells) (view cycle) note.now) }
{
    json!(in alloc; {
        "cells": cells,
        "column": note.at.column,
        "cycle": cycle,
        "line": note.at.line,
        "site": note.site,
        "thread": note.thread
    })
}

/// A buffered store, with the cells that it may be to.
fn note_value(alloc: Global, cells: &[Cell], named: &[u32], note: &Note) -> Result<Value, NoMemory>
    ensures { IfOk result (λ v. view v ≡ note_data cells.now named.now note.now) }
{
    let named = names(alloc, cells, named)?;
    let cycle = numbers(alloc, note.cycle.items())?;
    Ok(note_object(alloc, Value::Array(named), Value::Array(cycle), note)?)
}

/// The buffered stores, in order.
fn notes_values(
    alloc: Global,
    program: &Program,
    graph: &Graph,
    notes: &[Note],
) -> Result<Vec<Value>, NoMemory>
    requires graph { IsGraphOf program.now graph.now }
    requires notes { All (λ note. note.site < length (sites program.now)) notes.now }
    ensures { IfOk result (λ values. AreReported program.now notes.now (map view values.items)) }
{
    let mut values = Vec::new(alloc);
    'notes: for note in notes {
        let site = &graph.sites()[note.site as usize];
        let value = note_value(alloc, program.cells(), site.cells.items(), note)?;
        values.push(value)?;
    }
    Ok(values)
}

fn report_object(
    alloc: Global,
    buffered: Value,
    sites: usize,
    head: &Head,
) -> Result<Value, AllocError>
    ensures { IfOk result (λ v. view v ≡ report_of (view buffered) sites head.now) }
{
    json!(in alloc; {
        "bound": head.bound.get(),
        "buffered": buffered,
        "model": head.model.word(),
        "sites": sites
    })
}

fn report_value(
    alloc: Global,
    buffered: Vec<Value>,
    sites: usize,
    head: &Head,
) -> Result<Value, NoMemory>
    ensures { IfOk result (λ v. view v ≡ report_of (list_data (map view buffered.items)) sites head.now) }
{
    Ok(report_object(alloc, Value::Array(buffered), sites, head)?)
}

/// The report on a program, in one line without its end, by its graph and the head of its plan.
pub fn report(
    alloc: Global,
    program: &Program,
    graph: &Graph,
    head: &Head,
) -> Result<String, NoMemory>
    requires graph { IsGraphOf program.now graph.now }
    requires notes { All (λ note. note.site < length (sites program.now)) head.now.notes }
    ensures { IfOk result (λ text. IsReport program.now head.now (string_bytes text)) }
{
    let buffered = notes_values(alloc, program, graph, head.notes.items())?;
    let value = report_value(alloc, buffered, graph.sites().len(), head)?;
    Ok(value.to_string(alloc)?)
}
