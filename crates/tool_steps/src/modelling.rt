ghost use Rattle.std.specs.Prelude.{◌≡◌, ◌≤◌, IfOk, IfErr, OnOk};
ghost use Rattle.c_tree.specs.View.{program_of};
ghost use Rattle.flow_graph.specs.GraphOfProgram.{graph_of_program};
ghost use Rattle.tool_steps.specs.ModelTexts.{HasLanguagesOf, IsModelOf, IsModelText};
ghost use Rattle.tool_steps.specs.ModelStops.{IsStopWith, StopsBuilding, StopsWriting, StopsModelling};

use c_tree::Program;
use flow_graph::{BuildError, Calls, build};
use flow_model::Model;
use model_file::{WriteModelError, write_model};
use std::alloc::Global;
use tool_frame::{Stop, fixed_line};

// The stop with this line.
fn stop_with(alloc: Global, text: &[u8]) -> Stop
    ensures { IsStopWith result text.now }
{
    match fixed_line(alloc, text) {
        Ok(line) => Stop::Source(line),
        Err(_) => Stop::OutOfMemory,
    }
}

/// The model of a program. More than 200,000 nodes are refused.
pub fn model_of(alloc: Global, program: &Program) -> Result<Model, Stop>
    ensures model { IfOk result (λ m. m ≡ graph_of_program (program_of program.now)) }
    ensures few { OnOk result ((graph_of_program (program_of program.now)).nodes ≤ 200000) }
    ensures languages { IfOk result (λ m. HasLanguagesOf (program_of program.now) m) }
    ensures stop { IfErr result (λ stop. StopsBuilding stop (program_of program.now)) }
{
    let calls = Calls::of(alloc, program)?;
    match build(alloc, program, &calls) {
        Ok(model) => Ok(model),
        Err(BuildError::TooManyNodes) => Err(stop_with(alloc, b"source refused G1\n")),
        Err(BuildError::OutOfMemory) => Err(Stop::OutOfMemory),
    }
}

// The text of a model.
fn text_of(alloc: Global, model: &Model) -> Result<Vec<u8>, Stop>
    ensures text { IfOk result (λ text. IsModelText model.now text.items) }
    ensures stop { IfErr result (λ stop. StopsWriting stop model.now) }
{
    match write_model(alloc, model) {
        Ok(text) => Ok(text),
        Err(WriteModelError::TooLarge) => Err(stop_with(alloc, b"source refused G2\n")),
        Err(WriteModelError::OutOfMemory) => Err(Stop::OutOfMemory),
    }
}

/// The text of the model of a program.
pub fn graph_text(alloc: Global, program: &Program) -> Result<Vec<u8>, Stop>
    ensures made { IfOk result (λ text. IsModelOf (program_of program.now) text.items) }
    ensures stop { IfErr result (λ stop. StopsModelling stop (program_of program.now)) }
{
    let model = match model_of(alloc, program) {
        Ok(model) => model,
        Err(stop) => return Err(stop),
    };
    match text_of(alloc, &model) {
        Ok(text) => Ok(text),
        Err(stop) => Err(stop),
    }
}
