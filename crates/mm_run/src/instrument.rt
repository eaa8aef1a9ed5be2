ghost use Rattle.std.specs.Prelude.{◌≡◌, ◌≤◌, length, IfOk, string_bytes};
ghost use Rattle.mm_goto.specs.Valid.{IsValid};
ghost use Rattle.mm_graph.specs.Graphs.{IsGraphOf};
ghost use Rattle.mm_tree.specs.declared.side.Side.TheVariants.{Source};
ghost use Rattle.mm_run.specs.Answer.{AnswersProgram, IsWoven, PrintsWoven};
ghost use Rattle.mm_run.specs.reading.Sound.{IsOfSource};

use crate::answer::{Answer, answer_fault};
use crate::event_graph::{event_graph, too_large};
use crate::input::MAX_INPUT;
use crate::laws::a_woven_text_is_accepted;
use crate::program::any_program;
use crate::status::Status;
use mm_delay::plan;
use mm_goto::{Bound, Model, NoMemory, Program};
use mm_graph::Graph;
use mm_instr::instrument;
use mm_print::print;
use mm_tree::Side;
use std::alloc::Global;

// The text of the woven program, for its plan.
fn weave(
    alloc: Global,
    program: &Program,
    graph: &Graph,
    model: Model,
    bound: Bound,
) -> Result<String, NoMemory>
    requires { IsGraphOf program.now graph.now }
    ensures { IfOk result (λ text. IsWoven program.now model bound (string_bytes text)) }
{
    let (shape, head) = plan(alloc, program, graph, model, bound)?;
    let tree = instrument(alloc, program, &shape)?;
    print(alloc, &tree, &head)
}

// The woven program, by the program's event graph.
fn woven(
    alloc: Global,
    program: &Program,
    graph: &Graph,
    model: Model,
    bound: Bound,
) -> Result<Answer, NoMemory>
    requires graph { IsGraphOf program.now graph.now }
    requires source { IsOfSource program.now }
    ensures { IfOk result (λ answer. PrintsWoven model bound program.now answer.status (string_bytes answer.output)) }
{
    // A program is valid, and a bound is 1 at least: each thread may have a pending store.
    program.threads();
    bound.get();
    a_woven_text_is_accepted();
    Ok(Answer {
        status: Status::Done,
        output: weave(alloc, program, graph, model, bound)?,
    })
}

// The woven program, or that the program is too large.
fn weave_program(
    alloc: Global,
    program: &Program,
    model: Model,
    bound: Bound,
) -> Result<Answer, NoMemory>
    requires { IsOfSource program.now }
    ensures { IfOk result (λ answer. PrintsWoven model bound program.now answer.status (string_bytes answer.output)) }
{
    match event_graph(alloc, program) {
        Ok(graph) => woven(alloc, program, &graph, model, bound),
        Err(fault) => too_large(alloc, fault),
    }
}

/// The answer of `instrument` to the text of a program.
pub fn answer_instrument(
    alloc: Global,
    model: Model,
    bound: Bound,
    input: &str,
) -> Result<Answer, NoMemory>
    requires { length input.now ≤ MAX_INPUT }
    ensures { IfOk result (λ answer. AnswersProgram Source (PrintsWoven model bound) input.now answer.status (string_bytes answer.output)) }
{
    match any_program(alloc, input, Side::Source) {
        Ok(program) => weave_program(alloc, &program, model, bound),
        Err(fault) => answer_fault(alloc, fault),
    }
}
