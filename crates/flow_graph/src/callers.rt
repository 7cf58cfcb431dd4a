ghost use Rattle.std.specs.Prelude.{◌≡◌, ◌+◌, ◌<◌, ◌^◌, length, OnOk, IfOk};
ghost use Rattle.c_tree.specs.Functions.{defined};
ghost use Rattle.c_tree.specs.View.{program_of};
ghost use Rattle.flow_graph.specs.Saying.{mention_of};
ghost use Rattle.flow_graph.specs.Types.{types_at, items_of};
ghost use Rattle.dm_base.specs.Adding.{Gains, Has};
ghost use Rattle.flow_graph.specs.Callers.{Link, HasCaller, node_called, IsCall, IsCallBelow, IsCandidate, IsCandidateBelow, AreCallers};

use crate::mention::Mention;
use crate::saying::said_by;
use crate::types::place_of;
use c_tree::{CType, Program};
use dm_base::OutOfMemory;
use std::alloc::Global;

// The node that is called: a function by its number, or after the `count` functions the place of the type of
// the pointer. Null calls have no node.
fn node_of(types: &[&CType], count: usize, m: &Mention) -> Option<usize>
    requires { count < 2 ^ 32 }
    ensures { result ≡ node_called (types_at types.now) count (mention_of m.now) }
{
    match m {
        Mention::Named(_) => None,
        Mention::Direct { function, .. } => {
            let function = *function as usize;
            if function < count {
                Some(function)
            } else {
                None
            }
        }
        Mention::Through { ctype, .. } => Some(count + place_of(types, ctype)),
    }
}

// So many empty lists.
fn no_callers(alloc: Global, count: usize) -> Result<Vec<Vec<usize>>, OutOfMemory>
    ensures length { IfOk result (λ v. length v.items ≡ count) }
    ensures none { IfOk result (λ v. (e : Link) → HasCaller v.items e → ⊥) }
{
    let mut callers = Vec::new(alloc);
    for _i in 0..count {
        callers.push(Vec::new(alloc))?;
    }
    Ok(callers)
}

// Adds a caller to those of the node, where there is such a node.
fn add_caller(callers: &mut Vec<Vec<usize>>, to: usize, by: usize) -> Result<(), OutOfMemory>
    ensures length { OnOk result (length callers.new.items ≡ length callers.old.items) }
    ensures added { OnOk result (Gains (HasCaller callers.old.items) (HasCaller callers.new.items) (IsCandidate (length callers.old.items) by to)) }
{
    if to >= callers.len() {
        return Ok(());
    }
    callers[to].push(by)?;
    Ok(())
}

// Adds the function whose body has the mention to the callers of what is called.
fn add_call(
    callers: &mut Vec<Vec<usize>>,
    types: &[&CType],
    count: usize,
    by: usize,
    m: &Mention,
) -> Result<(), OutOfMemory>
    requires { count < 2 ^ 32 }
    ensures length { OnOk result (length callers.new.items ≡ length callers.old.items) }
    ensures added { OnOk result (Gains (HasCaller callers.old.items) (HasCaller callers.new.items) (IsCall (length callers.old.items) (types_at types.now) count by (mention_of m.now))) }
{
    let Some(node) = node_of(types, count, m) else {
        return Ok(());
    };
    add_caller(callers, node, by)
}

// The same for each of the mentions in its body.
fn add_calls(
    callers: &mut Vec<Vec<usize>>,
    types: &[&CType],
    count: usize,
    by: usize,
    ms: &[Mention],
) -> Result<(), OutOfMemory>
    requires { count < 2 ^ 32 }
    ensures length { OnOk result (length callers.new.items ≡ length callers.old.items) }
    ensures added { OnOk result (Gains (HasCaller callers.old.items) (HasCaller callers.new.items) (λ e. Has (λ m. IsCall (length callers.old.items) (types_at types.now) count by (mention_of m) e) ms.now)) }
{
    for m in ms {
        add_call(callers, types, count, by, m)?;
    }
    Ok(())
}

// Adds each defined function to the callers of what its body calls.
fn add_bodies(
    alloc: Global,
    callers: &mut Vec<Vec<usize>>,
    types: &[&CType],
    program: &Program,
) -> Result<(), OutOfMemory>
    ensures length { OnOk result (length callers.new.items ≡ length callers.old.items) }
    ensures added { OnOk result (Gains (HasCaller callers.old.items) (HasCaller callers.new.items) (IsCallBelow (length callers.old.items) (types_at types.now) (defined (program_of program.now) + 24) (program_of program.now) (defined (program_of program.now)))) }
{
    let _sites = program.sites();
    let count = program.defined() as usize + 24;
    for f in 0..program.defined() {
        let ms = said_by(alloc, program.function(f))?;
        add_calls(callers, types, count, f as usize, &ms)?;
    }
    Ok(())
}

// Adds the pointer to the callers of the functions that it may call.
fn add_candidates(
    callers: &mut Vec<Vec<usize>>,
    by: usize,
    functions: &[u32],
) -> Result<(), OutOfMemory>
    ensures length { OnOk result (length callers.new.items ≡ length callers.old.items) }
    ensures added { OnOk result (Gains (HasCaller callers.old.items) (HasCaller callers.new.items) (λ e. Has (λ f. IsCandidate (length callers.old.items) by f e) functions.now)) }
{
    for f in functions {
        add_caller(callers, *f as usize, by)?;
    }
    Ok(())
}

// The same for the pointers of each type.
fn add_lists(
    callers: &mut Vec<Vec<usize>>,
    count: usize,
    lists: &[Vec<u32>],
) -> Result<(), OutOfMemory>
    requires { count < 2 ^ 32 }
    ensures length { OnOk result (length callers.new.items ≡ length callers.old.items) }
    ensures added { OnOk result (Gains (HasCaller callers.old.items) (HasCaller callers.new.items) (IsCandidateBelow (length callers.old.items) count (items_of lists.now) (length (items_of lists.now)))) }
{
    for k in 0..lists.len() {
        add_candidates(callers, count + k, &lists[k])?;
    }
    Ok(())
}

// The callers of each node.
pub fn callers_of(
    alloc: Global,
    program: &Program,
    types: &[&CType],
    lists: &[Vec<u32>],
) -> Result<Vec<Vec<usize>>, OutOfMemory>
    ensures { IfOk result (λ v. AreCallers (program_of program.now) (types_at types.now) (items_of lists.now) v.items) }
{
    let _sites = program.sites();
    let count = program.defined() as usize + 24;
    let mut callers = no_callers(alloc, count + types.len())?;
    add_bodies(alloc, &mut callers, types, program)?;
    add_lists(&mut callers, count, lists)?;
    Ok(callers)
}
