ghost use Rattle.std.specs.Prelude.{◌≡◌, ◌<◌, ◌≤◌, OnOk, IfOk, IfErr};
ghost use Rattle.c_tree.specs.View.{program_of};
ghost use Rattle.c_meaning.specs.ProgramLanguages as programs;
ghost use Rattle.flow_graph.specs.Calls.{AreCallsOf};
ghost use Rattle.flow_model.specs.declared.which.Which.TheVariants.{Callgraph, Stack, Dyck};
ghost use Rattle.flow_model.specs.Language.{Reads};
ghost use Rattle.flow_model.specs.Rules.{IsValid};
ghost use Rattle.c_meaning.specs.Equal.{AreEqual};
ghost use Rattle.c_meaning.specs.GraphOfProgram.{graph_of_program};

use crate::programs::shapes_of_functions;
use crate::{BuildError, Calls, model_of_shapes};
use c_tree::Program;
use dm_base::OutOfMemory;
use flow_model::Model;
use std::alloc::Global;

/// The model of the program, whose call graph is this one: the graph of its shapes. Its functions are the defined
/// ones in the order of their definitions, and then the system calls whose names are taken. More than 200,000
/// nodes are refused before any memory is taken for the graph. The model has the three languages of the program
/// (Wagner and Dean 2001; Giffin, Jha and Miller 2004).
pub fn build(alloc: Global, program: &Program, calls: &Calls) -> Result<Model, BuildError>
    requires { AreCallsOf (program_of program.now) calls.now }
    ensures graph { IfOk result (λ m. m ≡ graph_of_program (program_of program.now)) }
    ensures valid { IfOk result (λ m. IsValid m) }
    ensures few { OnOk result ((graph_of_program (program_of program.now)).nodes ≤ 200000) }
    ensures many { IfErr result (λ e. e ≡ BuildError.TooManyNodes → 200000 < (graph_of_program (program_of program.now)).nodes) }
    ensures dyck { IfOk result (λ m. AreEqual (programs.Dyck (program_of program.now)) (Reads Dyck m)) }
    ensures stack { IfOk result (λ m. AreEqual (programs.Stack (program_of program.now)) (Reads Stack m)) }
    ensures callgraph { IfOk result (λ m. AreEqual (programs.Callgraph (program_of program.now)) (Reads Callgraph m)) }
{
    match shapes_of_functions(alloc, program, calls) {
        Ok(shapes) => model_of_shapes(alloc, program, calls, &shapes),
        Err(OutOfMemory) => Err(BuildError::OutOfMemory),
    }
}
