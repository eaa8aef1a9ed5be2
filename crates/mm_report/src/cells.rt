ghost use Rattle.std.specs.Prelude.{◌≡◌, ◌++◌, IfOk, OnOk, map, slice_get, string_bytes};
ghost use Rattle.serde_json.specs.View.{view};
ghost use Rattle.mm_report.specs.Reports.{cell_text, index_text, name_data, number_data, text_or_none};

use mm_goto::text::{put, put_number};
use mm_goto::{Cell, NoMemory};
use serde_json::Value;
use std::alloc::Global;

fn put_index(alloc: Global, out: &mut String, index: Option<u32>) -> Result<(), NoMemory>
    ensures { OnOk result (string_bytes out.new ≡ string_bytes out.old ++ index_text index) }
{
    match index {
        None => Ok(()),
        Some(index) => {
            put(out, "[")?;
            put_number(alloc, out, u64::from(index))?;
            put(out, "]")
        }
    }
}

/// The name of the cell.
fn cell_name(alloc: Global, cell: &Cell) -> Result<String, NoMemory>
    ensures { IfOk result (λ name. string_bytes name ≡ cell_text cell.now) }
{
    let mut name = String::new(alloc);
    put(&mut name, cell.name.text())?;
    put_index(alloc, &mut name, cell.index)?;
    Ok(name)
}

/// The name of the cell with this number, and nothing where there is none.
fn name_of(alloc: Global, cells: &[Cell], number: u32) -> Result<String, NoMemory>
    ensures { IfOk result (λ name. string_bytes name ≡ text_or_none (slice_get cells.now number)) }
{
    match cells.get(number as usize) {
        None => Ok(String::new(alloc)),
        Some(cell) => cell_name(alloc, cell),
    }
}

/// The names of the cells with these numbers.
pub fn names(alloc: Global, cells: &[Cell], numbers: &[u32]) -> Result<Vec<Value>, NoMemory>
    ensures { IfOk result (λ names. map view names.items ≡ map (name_data cells.now) numbers.now) }
{
    let mut names = Vec::new(alloc);
    'numbers: for number in numbers {
        names.push(Value::String(name_of(alloc, cells, *number)?))?;
    }
    Ok(names)
}

/// The numbers, as values.
pub fn numbers(alloc: Global, numbers: &[u32]) -> Result<Vec<Value>, NoMemory>
    ensures { IfOk result (λ values. map view values.items ≡ map number_data numbers.now) }
{
    let mut values = Vec::new(alloc);
    'numbers: for number in numbers {
        values.push(Value::from(*number))?;
    }
    Ok(values)
}
