//! A case: a line with its title, a line with the machine, a source, the line `%%`, and a schedule.
ghost use Rattle.std.specs.Prelude.{◌≤◌, length, IfSome};
ghost use Rattle.mm_goto.specs.Sourcelike.{IsSourcelike};
ghost use Rattle.mm_sched.specs.ScheduleText.{entries_of};
ghost use Rattle.mm_sched.specs.Sections.{HasNoSection};

use crate::carrying::show_carried;
use crate::program::program_of;
use crate::show::show_graph;
use mm_goto::{Bound, Model, Program};
use mm_rungraph::{RunFault, run_graph};
use mm_sched::{Schedule, read_schedule};
use std::alloc::Global;
use std::io;

/// What is shown of a run: its graph with each node, how many nodes and edges it has, or that it is carried to partial buffers.
#[derive(Clone, Copy, Drop)]
enum View {
    Nodes,
    Counts,
    Carried,
}

/// On which machine a case runs, and what is shown of it.
#[derive(Drop)]
struct Machine {
    model: Model,
    bound: Bound,
    view: View,
}

fn model_of(word: &str) -> Option<Model> {
    match word {
        "tso" => Some(Model::Tso),
        "pso" => Some(Model::Pso),
        _ => None,
    }
}

fn bound_of(word: &str) -> Option<Bound> {
    match word.parse() {
        Ok(n) => Bound::new(n),
        Err(_) => None,
    }
}

fn machine_of(alloc: Global, line: &str) -> Option<Machine> {
    let words: Vec<&str> = match line.split(" ").collect(alloc) {
        Ok(words) => words,
        Err(_) => return None,
    };
    match words.as_slice() {
        [model, bound] => Some(Machine {
            model: model_of(model)?,
            bound: bound_of(bound)?,
            view: View::Nodes,
        }),
        [model, bound, "counts"] => Some(Machine {
            model: model_of(model)?,
            bound: bound_of(bound)?,
            view: View::Counts,
        }),
        [model, bound, "carried"] => Some(Machine {
            model: model_of(model)?,
            bound: bound_of(bound)?,
            view: View::Carried,
        }),
        _ => None,
    }
}

/// The schedule of the text, where it has no more entries than a run graph may have.
fn schedule_of(alloc: Global, text: &str) -> Option<Schedule>
    ensures { IfSome result (λ schedule. length (entries_of schedule) ≤ 10000000) }
{
    match read_schedule(alloc, text) {
        Ok(schedule) => {
            if schedule.len() <= 10_000_000 {
                Some(schedule)
            } else {
                None
            }
        }
        Err(_) => None,
    }
}

/// The goto program of the text, where it is a source.
fn source_of(alloc: Global, text: &str) -> Option<Program>
    ensures sections { IfSome result HasNoSection }
    ensures source { IfSome result IsSourcelike }
{
    if text.len() <= 16_777_216 {
        program_of(alloc, text)
    } else {
        None
    }
}

fn show_run<R: Print + AllocGlobal>(
    rt: &R,
    machine: &Machine,
    program: &Program,
    schedule: &Schedule,
) -> io::Result<()>
    requires sections { HasNoSection program.now }
    requires source { IsSourcelike program.now }
    requires few { length (entries_of schedule.now) ≤ 10000000 }
{
    match run_graph(rt.alloc(), program, machine.model, machine.bound, schedule) {
        Ok(graph) => match machine.view {
            View::Nodes => show_graph(rt, &graph, true),
            View::Counts => show_graph(rt, &graph, false),
            View::Carried => {
                show_carried(rt, program, machine.model, machine.bound, &graph, schedule)
            }
        },
        Err(RunFault::Stuck(k)) => println!(rt; "stuck at entry {k}"),
        Err(RunFault::NotFailing) => println!(rt; "not failing"),
        Err(RunFault::NoMemory) => println!(rt; "no memory"),
    }
}

/// Shows what the schedule of the second text does by the source of the first.
fn show_texts<R: Print + AllocGlobal>(
    rt: &R,
    machine: &Machine,
    program: &str,
    schedule: &str,
) -> io::Result<()> {
    match (
        source_of(rt.alloc(), program),
        schedule_of(rt.alloc(), schedule),
    ) {
        (Some(program), Some(schedule)) => show_run(rt, machine, &program, &schedule),
        _ => println!(rt; "no program, or no schedule"),
    }
}

fn show_on_machine<R: Print + AllocGlobal>(rt: &R, line: &str, texts: &str) -> io::Result<()> {
    match (machine_of(rt.alloc(), line), texts.split_once("\n%%\n")) {
        (Some(machine), Some((program, schedule))) => show_texts(rt, &machine, program, schedule),
        _ => println!(rt; "no case"),
    }
}

/// Prints the title of the case, its machine, and its run graph.
pub fn show_case<R: Print + AllocGlobal>(rt: &R, text: &str) -> io::Result<()> {
    let (title, rest) = text.split_once("\n").unwrap_or((text, ""));
    let (line, texts) = rest.split_once("\n").unwrap_or((rest, ""));
    println!(rt; "{title}")?;
    println!(rt; "{line}")?;
    show_on_machine(rt, line, texts)
}
