ghost use Rattle.std.specs.Prelude.{◌≡◌, ◌≤◌, length, IfOk, string_bytes};
ghost use Rattle.mm_graph.specs.Graphs.{IsGraphOf};
ghost use Rattle.mm_tree.specs.declared.side.Side.TheVariants.{Source};
ghost use Rattle.mm_run.specs.Answer.{AnswersProgram, ReportsCycles};

use crate::answer::{Answer, answer_fault};
use crate::event_graph::{event_graph, too_large};
use crate::input::MAX_INPUT;
use crate::program::any_program;
use crate::status::Status;
use mm_delay::head;
use mm_goto::{Bound, Model, NoMemory, Program};
use mm_graph::Graph;
use mm_report::report;
use mm_tree::Side;
use std::alloc::Global;

// The report on the program, by its graph.
fn reported(
    alloc: Global,
    program: &Program,
    graph: &Graph,
    model: Model,
    bound: Bound,
) -> Result<Answer, NoMemory>
    requires { IsGraphOf program.now graph.now }
    ensures { IfOk result (λ answer. ReportsCycles model bound program.now answer.status (string_bytes answer.output)) }
{
    let head = head(alloc, graph, model, bound)?;
    let mut output = report(alloc, program, graph, &head)?;
    output.push_str("\n")?;
    Ok(Answer {
        status: Status::Done,
        output,
    })
}

// The report on the program, or that it is too large.
fn report_on(
    alloc: Global,
    program: &Program,
    model: Model,
    bound: Bound,
) -> Result<Answer, NoMemory>
    ensures { IfOk result (λ answer. ReportsCycles model bound program.now answer.status (string_bytes answer.output)) }
{
    match event_graph(alloc, program) {
        Ok(graph) => reported(alloc, program, &graph, model, bound),
        Err(fault) => too_large(alloc, fault),
    }
}

/// The answer of `cycles` to the text of a program.
pub fn answer_cycles(
    alloc: Global,
    model: Model,
    bound: Bound,
    input: &str,
) -> Result<Answer, NoMemory>
    requires { length input.now ≤ MAX_INPUT }
    ensures { IfOk result (λ answer. AnswersProgram Source (ReportsCycles model bound) input.now answer.status (string_bytes answer.output)) }
{
    match any_program(alloc, input, Side::Source) {
        Ok(program) => report_on(alloc, &program, model, bound),
        Err(fault) => answer_fault(alloc, fault),
    }
}
