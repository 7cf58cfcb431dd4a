ghost use Rattle.std.specs.Prelude.{ℕ, List, [], All, nat_eq, OnOk, OnErr};
ghost use Rattle.dm_base.specs.declared.event.Event.{Event};
ghost use Rattle.flow_model.specs.Graph.{Graph};
ghost use Rattle.indexmap.specs.IndexMap.{values, IsUnique};
ghost use Rattle.watch.specs.Keeping.{accepted_of};

use crate::process::Process;
use dm_base::OutOfMemory;
use flow_model::Monitor;
use indexmap::IndexMap;

/// Marks the monitor of each process that was not refused.
pub fn mark_accepted<M: Monitor>(
    table: &IndexMap<u32, Process<M>>,
    pool: &mut M::Pool,
) -> Result<(), OutOfMemory>
    requires { (g : Graph) × (k : ℕ) × M.is_pool pool.old g × (IsUnique nat_eq table.now → All (λ p. (h : List Event) × M.stands p.monitor pool.old g k h) (values table.now)) }
    ensures unique { IsUnique nat_eq table.now }
    ensures pool { (g : Graph) → M.is_pool pool.old g → M.is_pool pool.new g }
    ensures ok { OnOk result ((g : Graph) → M.noted pool.old g [] → M.noted pool.new g (accepted_of (values table.now))) }
    ensures err { OnErr result ((g : Graph) → M.is_pool pool.old g → M.noted pool.new g []) }
    ensures others { (m : M) (g : Graph) (k : ℕ) (h : List Event) → M.stands m pool.old g k h → M.stands m pool.new g k h }
{
    let _distinct = table.len();
    for process in table.values() {
        match &process.past.refusal {
            None => process.monitor.mark(pool)?,
            Some(_) => {}
        }
    }
    Ok(())
}
