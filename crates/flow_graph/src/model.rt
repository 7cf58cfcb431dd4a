ghost use Rattle.std.specs.Prelude.{◌≡◌, ◌<◌, ◌≤◌, OnOk, IfOk, IfErr};
ghost use Rattle.c_tree.specs.View.{program_of};
ghost use Rattle.c_meaning.specs.ShapeOf.{shapes_of_functions};
ghost use Rattle.c_meaning.specs.ProgramLanguages as programs;
ghost use Rattle.flow_graph.specs.Calls.{AreCallsOf};
ghost use Rattle.flow_graph.specs.View.{shapes_in};
ghost use Rattle.flow_model.specs.declared.which.Which.TheVariants.{Callgraph, Stack, Dyck};
ghost use Rattle.flow_model.specs.Language.{Reads};
ghost use Rattle.flow_model.specs.Rules.{IsValid};
ghost use Rattle.c_meaning.specs.Equal.{AreEqual};
ghost use Rattle.c_meaning.specs.GraphOf.{nodes_from};
ghost use Rattle.c_meaning.specs.GraphOfProgram.{graph_of_program};

use crate::functions::nodes_of;
use crate::records::builder_of;
use crate::shape::Shape;
use crate::{BuildError, Calls};
use c_meaning::{program_graph_has_the_words, program_graph_is_valid};
use c_tree::Program;
use dm_base::OutOfMemory;
use flow_model::{FinishError, Model};
use std::alloc::Global;

// The most nodes that a model has.
const MOST: u32 = 200_000;

// The model of a program that has these shapes and so many nodes.
fn model_with(
    alloc: Global,
    program: &Program,
    calls: &Calls,
    shapes: &[Shape],
    nodes: u32,
) -> Result<Model, OutOfMemory>
    requires calls { AreCallsOf (program_of program.now) calls.now }
    requires shapes { shapes_in shapes.now ≡ shapes_of_functions (program_of program.now) }
    requires nodes { nodes ≡ nodes_from 0 (shapes_in shapes.now) }
    requires few { nodes ≤ 200000 }
    ensures { IfOk result (λ m. m ≡ graph_of_program (program_of program.now)) }
{
    program_graph_is_valid();
    let _sites = program.sites();
    let builder = builder_of(alloc, program, calls, shapes)?;
    match builder.finish(nodes, program.main()) {
        Ok(model) => Ok(model),
        Err(FinishError::OutOfMemory) => Err(OutOfMemory),
        // The graph breaks no rule of models.
        Err(FinishError::Invalid(_)) => unreachable!(),
    }
}

/// The model of a program whose functions have these shapes, and whose call graph is this one: the graph of the
/// shapes. Its functions are the defined ones in the order of their definitions, and then the system calls whose
/// names are taken. More than 200,000 nodes are refused before any memory is taken. The model has the three
/// languages of the program (Wagner and Dean 2001; Giffin, Jha and Miller 2004).
pub fn model_of_shapes(
    alloc: Global,
    program: &Program,
    calls: &Calls,
    shapes: &[Shape],
) -> Result<Model, BuildError>
    requires calls { AreCallsOf (program_of program.now) calls.now }
    requires shapes { shapes_in shapes.now ≡ shapes_of_functions (program_of program.now) }
    ensures graph { IfOk result (λ m. m ≡ graph_of_program (program_of program.now)) }
    ensures valid { IfOk result (λ m. IsValid m) }
    ensures few { OnOk result ((graph_of_program (program_of program.now)).nodes ≤ 200000) }
    ensures many { IfErr result (λ e. e ≡ BuildError.TooManyNodes → 200000 < (graph_of_program (program_of program.now)).nodes) }
    ensures dyck { IfOk result (λ m. AreEqual (programs.Dyck (program_of program.now)) (Reads Dyck m)) }
    ensures stack { IfOk result (λ m. AreEqual (programs.Stack (program_of program.now)) (Reads Stack m)) }
    ensures callgraph { IfOk result (λ m. AreEqual (programs.Callgraph (program_of program.now)) (Reads Callgraph m)) }
{
    program_graph_is_valid();
    program_graph_has_the_words();
    let _sites = program.sites();
    let nodes = nodes_of(shapes, MOST + 1);
    if nodes > MOST {
        return Err(BuildError::TooManyNodes);
    }
    match model_with(alloc, program, calls, shapes, nodes) {
        Ok(model) => Ok(model),
        Err(OutOfMemory) => Err(BuildError::OutOfMemory),
    }
}
