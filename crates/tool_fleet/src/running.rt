ghost use Rattle.std.specs.Prelude.{◌≡◌, ◌≢◌, ◌≤◌, ◌<◌, ◌+◌, ◌-◌, ◌^◌, ℕ, List, [], All, AllPairs, Contains, Some, length, map, slice_get, IfOk, OnOk};
ghost use Rattle.std.specs.List.{AllZip};
ghost use Rattle.fleet.specs.Fleets.{StandsFor, steps_of};
ghost use Rattle.fleet.specs.Members.{Group};
ghost use Rattle.tool_fleet.specs.declared.inputs.GroupModel.{GroupModel as GroupModel'};
ghost use Rattle.tool_fleet.specs.declared.inputs.ProcessInput.{ProcessInput as ProcessInput'};
ghost use Rattle.tool_fleet.specs.Inputs.{IsReported, IsTellableReport, MayRun, group_of, member_after, numbers};

use crate::inputs::{GroupModel, Inputs, ProcessInput};
use crate::reports::ProcessReport;
use callgraph_monitor::CallgraphMonitor;
use dm_base::OutOfMemory;
use dyck_monitor::DyckMonitor;
use fleet::Fleet;
use flow_model::{Monitor, Which};
use stack_automaton::StackMonitor;
use std::alloc::Global;

// Adds the groups to a fleet without groups and processes.
fn add_groups<M: Monitor>(
    fleet: &mut Fleet<'_, M>,
    groups: &[GroupModel],
) -> Result<(), OutOfMemory>
    requires bounds { (k : ℕ) (g : GroupModel') → slice_get groups.now k ≡ Some g → (1 ≤ g.bound) × (g.bound ≤ 65535) }
    requires few { length groups.now ≤ 64 }
    requires empty { StandsFor M.Monitor fleet.old [] [] }
    ensures stands { OnOk result (StandsFor M.Monitor fleet.new (map group_of groups.now) []) }
    ensures counted { OnOk result (steps_of fleet.new ≡ steps_of fleet.old) }
{
    for one in groups {
        let model = one.model.copy()?;
        fleet.group(model, one.bound)?;
    }
    Ok(())
}

// Adds the processes to a fleet without processes.
fn add_processes<'p, M: Monitor>(
    fleet: &mut Fleet<'p, M>,
    processes: &'p [ProcessInput],
) -> Result<(), OutOfMemory>
    requires empty { (groups : List Group) × StandsFor M.Monitor fleet.old groups [] × ((k : ℕ) (p : ProcessInput') → slice_get processes.now k ≡ Some p → p.group < length groups) }
    requires few { length processes.now ≤ 64 }
    requires differ { AllPairs (λ a b. a ≢ b) (numbers processes.now) }
    ensures stands { OnOk result ((groups : List Group) → StandsFor M.Monitor fleet.old groups [] → StandsFor M.Monitor fleet.new groups (map (member_after []) processes.now)) }
    ensures counted { OnOk result (steps_of fleet.new ≡ steps_of fleet.old) }
{
    for one in processes {
        fleet.process(one.pid, one.group, &one.program, &one.results, one.turns)?;
    }
    Ok(())
}

// Advances processes that were not advanced yet, in this order.
fn advance_all<M: Monitor>(fleet: &mut Fleet<'_, M>, order: &[u32]) -> Result<(), OutOfMemory>
    requires there { (groups : List Group) × (processes : List ProcessInput') × StandsFor M.Monitor fleet.old groups (map (member_after []) processes) × All (Contains (numbers processes)) order.now }
    requires few { steps_of fleet.old + length order.now ≤ 2 ^ 32 }
    ensures { OnOk result ((groups : List Group) (processes : List ProcessInput') → StandsFor M.Monitor fleet.old groups (map (member_after []) processes) → StandsFor M.Monitor fleet.new groups (map (member_after order.now) processes)) }
{
    for pid in order {
        fleet.step(*pid)?;
    }
    Ok(())
}

// What the processes have come to, in order.
fn reports_of<M: Monitor>(
    alloc: Global,
    fleet: &Fleet<'_, M>,
    processes: &[ProcessInput],
) -> Result<Vec<ProcessReport>, OutOfMemory>
    requires { (groups : List GroupModel') × (order : List ℕ) × StandsFor M.Monitor fleet.now (map group_of groups) (map (member_after order) processes.now) }
    ensures reported { IfOk result (λ reports. (groups : List GroupModel') (order : List ℕ) → StandsFor M.Monitor fleet.now (map group_of groups) (map (member_after order) processes.now) → AllZip (IsReported M.WHICH groups order) processes.now reports.items) }
    ensures tellable { IfOk result (λ reports. All IsTellableReport reports.items) }
{
    let mut reports = Vec::new(alloc);
    for one in processes {
        let standing = fleet.standing(one.pid)?;
        reports.push(ProcessReport {
            pid: one.pid,
            standing,
        })?;
    }
    Ok(reports)
}

// Runs the processes in a fleet that is empty.
fn run_in<'p, M: Monitor>(
    alloc: Global,
    fleet: &mut Fleet<'p, M>,
    inputs: &'p Inputs,
    order: &[u32],
) -> Result<Vec<ProcessReport>, OutOfMemory>
    requires inputs { MayRun inputs.now.groups.items inputs.now.processes.items order.now }
    requires empty { StandsFor M.Monitor fleet.old [] [] }
    requires none { steps_of fleet.old ≡ 0 }
    ensures reported { IfOk result (λ reports. AllZip (IsReported M.WHICH inputs.now.groups.items order.now) inputs.now.processes.items reports.items) }
    ensures tellable { IfOk result (λ reports. All IsTellableReport reports.items) }
{
    add_groups(fleet, &inputs.groups)?;
    add_processes(fleet, &inputs.processes)?;
    advance_all(fleet, order)?;
    let reports = reports_of(alloc, fleet, &inputs.processes)?;
    Ok(reports)
}

// Runs the processes, each judged by this monitor.
fn run_by<M: Monitor>(
    alloc: Global,
    inputs: &Inputs,
    order: &[u32],
) -> Result<Vec<ProcessReport>, OutOfMemory>
    requires { MayRun inputs.now.groups.items inputs.now.processes.items order.now }
    ensures reported { IfOk result (λ reports. AllZip (IsReported M.WHICH inputs.now.groups.items order.now) inputs.now.processes.items reports.items) }
    ensures tellable { IfOk result (λ reports. All IsTellableReport reports.items) }
{
    let mut fleet = Fleet::<M>::new(alloc)?;
    let reports = run_in(alloc, &mut fleet, inputs, order)?;
    Ok(reports)
}

/// Runs the processes side by side, advanced in this order, each judged by the monitor of its group. Tells what each has come to.
pub fn run_all(
    alloc: Global,
    inputs: &Inputs,
    order: &[u32],
    which: Which,
) -> Result<Vec<ProcessReport>, OutOfMemory>
    requires { MayRun inputs.now.groups.items inputs.now.processes.items order.now }
    ensures reported { IfOk result (λ reports. AllZip (IsReported which inputs.now.groups.items order.now) inputs.now.processes.items reports.items) }
    ensures tellable { IfOk result (λ reports. All IsTellableReport reports.items) }
{
    match which {
        Which::Callgraph => run_by::<CallgraphMonitor>(alloc, inputs, order),
        Which::Stack => run_by::<StackMonitor>(alloc, inputs, order),
        Which::Dyck => run_by::<DyckMonitor>(alloc, inputs, order),
    }
}
