ghost use Rattle.std.specs.Prelude.{◌≡◌, ◌≤◌, IfOk, IfErr, IfSome};
ghost use Rattle.tool_files.specs.Monitors.{monitors_of};
ghost use Rattle.tool_files.specs.Inputs.{RefusesToJudge, LacksToJudge};
ghost use Rattle.tool_models.specs.Measure.{AreMeasured, Measures};
ghost use Rattle.tool_files.specs.Reading.{StopsTrace};
ghost use Rattle.tool_frame.specs.Stop.{Stops};
ghost use Rattle.tool_files.specs.Told.{IsTraceTold};

use crate::metering::Metering;
use callgraph_monitor::CallgraphMonitor;
use dm_base::Status;
use dm_io::Store;
use dyck_monitor::DyckMonitor;
use flow_model::Model;
use stack_automaton::StackMonitor;
use std::alloc::Global;
use tool_files::{Asked, Pair, follow_by, model_in};
use tool_frame::{Finished, Stop};

// The three monitors, in the order of their lines.
type All = Pair<Metering<CallgraphMonitor>, Pair<Metering<StackMonitor>, Metering<DyckMonitor>>>;

// The bound of the Dyck model.
const BOUND: u32 = 1_000;

// Has the monitors that are asked for measure the trace in a file.
fn measure_asked<S: Store>(
    alloc: Global,
    store: &mut S,
    model: &Model,
    trace: &str,
    asked: Asked,
) -> Result<Finished, Stop>
    ensures measured { IfOk result (λ done. IsTraceTold (S.files store.old) trace.now (AreMeasured (monitors_of asked) model.now) done.status done.text.items) }
    ensures same { S.files store.new ≡ S.files store.old }
    ensures stop { IfErr result (λ stop. StopsTrace stop (S.files store.old) trace.now (S.faults store.old) (S.faults store.new)) }
    ensures never_falls { S.faults store.old ≤ S.faults store.new }
{
    match asked {
        Asked::Callgraph => {
            follow_by::<S, Metering<CallgraphMonitor>>(alloc, store, model, trace, BOUND)
        }
        Asked::Stack => follow_by::<S, Metering<StackMonitor>>(alloc, store, model, trace, BOUND),
        Asked::Dyck => follow_by::<S, Metering<DyckMonitor>>(alloc, store, model, trace, BOUND),
        Asked::All => follow_by::<S, All>(alloc, store, model, trace, BOUND),
    }
}

/// Measures the precision of the model in a file along the trace in another, by the monitors that are
/// asked for.
pub fn measure<S: Store>(
    alloc: Global,
    store: &mut S,
    model: &str,
    trace: &str,
    asked: Asked,
) -> Result<Finished, Stop>
    ensures measured { IfOk result (λ done. IfSome (S.files store.old) (λ told. Measures told model.now trace.now (monitors_of asked) done.status done.text.items)) }
    ensures finished { IfOk result (λ done. done.status ≡ Status.Done) }
    ensures same { S.files store.new ≡ S.files store.old }
    ensures never_falls { S.faults store.old ≤ S.faults store.new }
    ensures stop { IfErr result (λ stop. Stops stop (RefusesToJudge (S.files store.old) model.now trace.now) (LacksToJudge (S.files store.old) model.now trace.now) (S.faults store.old) (S.faults store.new)) }
{
    let graph = model_in(alloc, store, model)?;
    match measure_asked(alloc, store, &graph, trace, asked) {
        Ok(finished) => Ok(finished),
        Err(stop) => Err(stop),
    }
}
