ghost use Rattle.std.specs.Prelude.{◌≡◌, ◌≤◌, ◌<◌, ◌^◌, IfOk, IfErr, IfSome};
ghost use Rattle.tool_files.specs.Monitors.{monitors_of};
ghost use Rattle.tool_frame.specs.Stop.{IsFinished};
ghost use Rattle.tool_models.specs.Judge.{Judges};
ghost use Rattle.tool_files.specs.Inputs.{RefusesToJudge, LacksToJudge};
ghost use Rattle.tool_files.specs.Judged.{AreJudged};
ghost use Rattle.tool_files.specs.Reading.{StopsTrace};
ghost use Rattle.tool_frame.specs.Stop.{Stops};
ghost use Rattle.tool_files.specs.Told.{IsTraceTold};

use callgraph_monitor::CallgraphMonitor;
use dm_io::Store;
use dyck_monitor::DyckMonitor;
use flow_model::Model;
use stack_automaton::StackMonitor;
use std::alloc::Global;
use tool_files::{AllMonitors, Asked, Judging, follow_by, model_in};
use tool_frame::{Finished, Stop};

// Has the monitors that are asked for judge the trace in a file.
fn judge_asked<S: Store>(
    alloc: Global,
    store: &mut S,
    model: &Model,
    trace: &str,
    asked: Asked,
    bound: u32,
) -> Result<Finished, Stop>
    requires { (1 ≤ bound) × (bound < 2 ^ 16) }
    ensures judged { IfOk result (λ done. IsTraceTold (S.files store.old) trace.now (AreJudged (monitors_of asked) model.now bound) done.status done.text.items) }
    ensures same { S.files store.new ≡ S.files store.old }
    ensures stop { IfErr result (λ stop. StopsTrace stop (S.files store.old) trace.now (S.faults store.old) (S.faults store.new)) }
    ensures never_falls { S.faults store.old ≤ S.faults store.new }
{
    match asked {
        Asked::Callgraph => {
            follow_by::<S, Judging<CallgraphMonitor>>(alloc, store, model, trace, bound)
        }
        Asked::Stack => follow_by::<S, Judging<StackMonitor>>(alloc, store, model, trace, bound),
        Asked::Dyck => follow_by::<S, Judging<DyckMonitor>>(alloc, store, model, trace, bound),
        Asked::All => follow_by::<S, AllMonitors>(alloc, store, model, trace, bound),
    }
}

/// Judges the trace in a file by the monitors that are asked for, of the model in another.
pub fn judge<S: Store>(
    alloc: Global,
    store: &mut S,
    model: &str,
    trace: &str,
    asked: Asked,
    bound: u32,
) -> Result<Finished, Stop>
    requires { (1 ≤ bound) × (bound < 2 ^ 16) }
    ensures judged { IfOk result (λ done. IfSome (S.files store.old) (λ told. Judges told model.now trace.now (monitors_of asked) bound done.status done.text.items)) }
    ensures finished { IfOk result (λ done. IsFinished done.status) }
    ensures same { S.files store.new ≡ S.files store.old }
    ensures never_falls { S.faults store.old ≤ S.faults store.new }
    ensures stop { IfErr result (λ stop. Stops stop (RefusesToJudge (S.files store.old) model.now trace.now) (LacksToJudge (S.files store.old) model.now trace.now) (S.faults store.old) (S.faults store.new)) }
{
    let graph = model_in(alloc, store, model)?;
    match judge_asked(alloc, store, &graph, trace, asked, bound) {
        Ok(finished) => Ok(finished),
        Err(stop) => Err(stop),
    }
}
