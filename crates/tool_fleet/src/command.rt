ghost use Rattle.std.specs.Prelude.{◌≡◌, ◌≤◌, IfOk, IfErr, IfSome};
ghost use Rattle.tool_fleet.specs.Fleet.{LacksForFleet, RefusesFleet, RunsFleet};
ghost use Rattle.tool_fleet.specs.Inputs.{IsFinishedRun, MayRun};
ghost use Rattle.tool_frame.specs.Stop.{IsFinished, Stops};

use crate::inputs::Inputs;
use crate::processes::inputs_in;
use crate::report_text::conclude;
use crate::running::run_all;
use crate::schedules::schedule_in;
use dm_base::OutOfMemory;
use dm_io::Store;
use flow_model::Which;
use std::alloc::Global;
use tool_frame::{Finished, Stop};

// Runs the processes that were read, and tells what each has come to.
fn finished_run(
    alloc: Global,
    inputs: &Inputs,
    order: &[u32],
    which: Which,
) -> Result<Finished, OutOfMemory>
    requires { MayRun inputs.now.groups.items inputs.now.processes.items order.now }
    ensures run { IfOk result (λ done. IsFinishedRun which inputs.now.groups.items inputs.now.processes.items order.now done.status done.text.items) }
    ensures finished { IfOk result (λ done. IsFinished done.status) }
{
    let reports = run_all(alloc, inputs, order, which)?;
    let finished = conclude(alloc, &reports)?;
    Ok(finished)
}

/// Runs the processes of the schedule in a file side by side, and tells what each has come to: its program runs with its recorded results,
/// one event an advance, until its run ends or this monitor of its model refuses an event. Processes with the same model and bound share
/// one group.
///
/// # Errors
///
/// The schedule is read and refused first; then, of each process in order, its program, its model where no earlier process has the same
/// model and bound, and its results. `Source` where a program is refused, `Model` where a model is, `Record` where the schedule is or
/// results are, `Read` where a read failed or a file isn't there, and `OutOfMemory`.
pub fn run_fleet<S: Store>(
    alloc: Global,
    store: &mut S,
    schedule: &str,
    which: Which,
) -> Result<Finished, Stop>
    ensures made { IfOk result (λ done. IfSome (S.files store.old) (λ told. RunsFleet told schedule.now which done.status done.text.items)) }
    ensures finished { IfOk result (λ done. IsFinished done.status) }
    ensures same { S.files store.new ≡ S.files store.old }
    ensures never_falls { S.faults store.old ≤ S.faults store.new }
    ensures stop { IfErr result (λ stop. Stops stop (RefusesFleet (S.files store.old) schedule.now) (LacksForFleet (S.files store.old) schedule.now) (S.faults store.old) (S.faults store.new)) }
{
    let plan = schedule_in(alloc, store, schedule)?;
    let inputs = inputs_in(alloc, store, plan.processes())?;
    let finished = finished_run(alloc, &inputs, plan.order(), which)?;
    Ok(finished)
}
