ghost use Rattle.std.specs.Prelude.{◌≡◌, suc, length, IfOk, OnOk};
ghost use Rattle.c_check_bodies.specs.Scoped.{Declares};
ghost use Rattle.c_rules.specs.Scopes.{a_local, with_name};
ghost use Rattle.c_check_counts.specs.View.{env_of};
ghost use Rattle.c_check_counts.specs.Environment.{Environment};
ghost use Rattle.c_tree.specs.View.{ctype_of};

use c_check_counts::{Environment, Meaning};
use c_tree::{CType, copy_type};
use dm_base::OutOfMemory;
use dm_counts::Count;
use std::alloc::Global;

/// Declares a variable with this number, and with its type so far and its type, in the innermost scope (C99 6.2.1).
pub fn declare_variable<'t>(
    alloc: Global,
    env: &mut Environment<'t>,
    name: &'t [u8],
    number: u32,
    seen: &CType,
    whole: &CType,
) -> Result<(), OutOfMemory>
    ensures meant { OnOk result (env_of env.new ≡ with_name (env_of env.old) name.now (a_local number (ctype_of seen.now) (ctype_of whole.now))) }
    ensures kept { OnOk result (Declares env.old env.new) }
{
    let seen = copy_type(alloc, seen)?;
    let whole = copy_type(alloc, whole)?;
    let means = Meaning::Local {
        number,
        seen,
        whole,
    };
    let depth = env.depth.copy()?;
    env.names.declare(name, depth, means)
}

/// Forgets all names but so many that were declared first.
pub fn leave_names(env: &mut Environment<'_>, count: usize)
    ensures { (outer : Environment) → Declares outer env.old → length outer.names ≡ count → env.new ≡ outer }
{
    env.names.leave(count);
}

/// Enters a block: what stands in it is one block deeper. It gives what this many blocks enclosed before, to which `leave_block` goes back.
pub fn enter_block(env: &mut Environment<'_>) -> Result<Count, OutOfMemory>
    ensures before { IfOk result (λ depth. depth ≡ env.old.depth) }
    ensures entered { OnOk result (env.new ≡ record env.old { depth = suc env.old.depth }) }
{
    let depth = env.depth.copy()?;
    let deeper = env.depth.one_more()?;
    env.depth = deeper;
    Ok(depth)
}

/// Leaves a block, back to the so many names that were declared before it, and to what this many blocks enclose (C99 6.2.1 paragraph 4).
pub fn leave_block(env: &mut Environment<'_>, count: usize, depth: Count)
    ensures { (outer : Environment) → Declares (record outer { depth = suc outer.depth }) env.old → length outer.names ≡ count → outer.depth ≡ depth → env.new ≡ outer }
{
    env.names.leave(count);
    env.depth = depth;
}
