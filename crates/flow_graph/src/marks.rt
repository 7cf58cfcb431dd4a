ghost use Rattle.std.specs.Prelude.{◌≡◌, ◌∷◌, ◌++◌, [], ℕ, false, slice_index_or, OnOk, IfOk};
ghost use Rattle.c_tree.specs.View.{program_of};
ghost use Rattle.c_meaning.specs.CallGraph.{marked};
ghost use Rattle.flow_graph.specs.Calls.{AreCallsOf};

use crate::Calls;
use c_tree::Program;
use dm_base::OutOfMemory;
use std::alloc::Global;

// Adds the mark of a site.
fn add(into: &mut Vec<bool>, mark: bool) -> Result<(), OutOfMemory>
    ensures { OnOk result (into.new.items ≡ into.old.items ++ mark ∷ []) }
{
    into.push(mark)?;
    Ok(())
}

// Whether each site of the program is marked, in the order of the sites.
pub fn marks_of(alloc: Global, program: &Program, calls: &Calls) -> Result<Vec<bool>, OutOfMemory>
    requires { AreCallsOf (program_of program.now) calls.now }
    ensures { IfOk result (λ marks. (s : ℕ) → slice_index_or marks.items s false ≡ marked (program_of program.now) s) }
{
    let mut marks = Vec::new(alloc);
    for site in 0..program.sites() {
        add(&mut marks, calls.marked(site))?;
    }
    Ok(marks)
}
