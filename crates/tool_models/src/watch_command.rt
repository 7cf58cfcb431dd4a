ghost use Rattle.std.specs.Prelude.{◌≡◌, ◌≤◌, ◌<◌, ◌^◌, IfOk, IfErr, IfSome};
ghost use Rattle.tool_files.specs.Monitors.{monitors_of};
ghost use Rattle.tool_frame.specs.Stop.{IsFinished};
ghost use Rattle.tool_files.specs.Inputs.{LacksToJudge};
ghost use Rattle.tool_files.specs.Reading.{StopsTraces};
ghost use Rattle.tool_frame.specs.Stop.{Stops};
ghost use Rattle.tool_files.specs.Told.{AreTracesTold};
ghost use Rattle.tool_models.specs.Watch.{Watches as WatchesTraces, RefusesToWatch};
ghost use Rattle.tool_models.specs.Watched.{AreAllWatched};

use crate::traces_follower::TracesFollower;
use crate::watch_pair::WatchPair;
use crate::watches::{Watches, findings_of};
use callgraph_monitor::CallgraphMonitor;
use dm_io::Store;
use dyck_monitor::DyckMonitor;
use flow_model::Model;
use stack_automaton::StackMonitor;
use std::alloc::Global;
use tool_files::{Asked, model_in, read_to_end};
use tool_frame::{Finished, Stop};
use watch::Watch;

// The watches of the three monitors, in the order of their lines.
type All = WatchPair<Watch<CallgraphMonitor>, WatchPair<Watch<StackMonitor>, Watch<DyckMonitor>>>;

// Has watches follow the interleaved traces in a file, and tells what they found.
fn watch_by<S: Store, W: Watches>(
    alloc: Global,
    store: &mut S,
    model: &Model,
    traces: &str,
    bound: u32,
) -> Result<Finished, Stop>
    requires { (1 ≤ bound) × (bound < 2 ^ 16) }
    ensures told { IfOk result (λ done. AreTracesTold (S.files store.old) traces.now (λ version records. AreAllWatched W.monitors model.now bound version records done.status done.text.items)) }
    ensures same { S.files store.new ≡ S.files store.old }
    ensures stop { IfErr result (λ stop. StopsTraces stop (S.files store.old) traces.now (S.faults store.old) (S.faults store.new)) }
    ensures never_falls { S.faults store.old ≤ S.faults store.new }
{
    let mut follower = TracesFollower::<W>::open(alloc, bound)?;
    match read_to_end(alloc, store, traces, &mut follower, model) {
        Ok(()) => {}
        Err(stop) => return Err(stop),
    }
    let watches = match follower.conclude(alloc) {
        Ok(watches) => watches,
        Err(stop) => return Err(stop),
    };
    let findings = findings_of(alloc, &watches)?;
    let finished = findings.conclude(alloc)?;
    Ok(finished)
}

// Has the monitors that are asked for watch the interleaved traces in a file.
fn watch_asked<S: Store>(
    alloc: Global,
    store: &mut S,
    model: &Model,
    traces: &str,
    asked: Asked,
    bound: u32,
) -> Result<Finished, Stop>
    requires { (1 ≤ bound) × (bound < 2 ^ 16) }
    ensures told { IfOk result (λ done. AreTracesTold (S.files store.old) traces.now (λ version records. AreAllWatched (monitors_of asked) model.now bound version records done.status done.text.items)) }
    ensures same { S.files store.new ≡ S.files store.old }
    ensures stop { IfErr result (λ stop. StopsTraces stop (S.files store.old) traces.now (S.faults store.old) (S.faults store.new)) }
    ensures never_falls { S.faults store.old ≤ S.faults store.new }
{
    match asked {
        Asked::Callgraph => {
            watch_by::<S, Watch<CallgraphMonitor>>(alloc, store, model, traces, bound)
        }
        Asked::Stack => watch_by::<S, Watch<StackMonitor>>(alloc, store, model, traces, bound),
        Asked::Dyck => watch_by::<S, Watch<DyckMonitor>>(alloc, store, model, traces, bound),
        Asked::All => watch_by::<S, All>(alloc, store, model, traces, bound),
    }
}

/// Judges the processes of the interleaved traces in a file by the monitors that are asked for, of the
/// model in another.
pub fn watch_traces<S: Store>(
    alloc: Global,
    store: &mut S,
    model: &str,
    traces: &str,
    asked: Asked,
    bound: u32,
) -> Result<Finished, Stop>
    requires { (1 ≤ bound) × (bound < 2 ^ 16) }
    ensures watched { IfOk result (λ done. IfSome (S.files store.old) (λ told. WatchesTraces told model.now traces.now (monitors_of asked) bound done.status done.text.items)) }
    ensures finished { IfOk result (λ done. IsFinished done.status) }
    ensures same { S.files store.new ≡ S.files store.old }
    ensures never_falls { S.faults store.old ≤ S.faults store.new }
    ensures stop { IfErr result (λ stop. Stops stop (RefusesToWatch (S.files store.old) model.now traces.now) (LacksToJudge (S.files store.old) model.now traces.now) (S.faults store.old) (S.faults store.new)) }
{
    let graph = model_in(alloc, store, model)?;
    match watch_asked(alloc, store, &graph, traces, asked, bound) {
        Ok(finished) => Ok(finished),
        Err(stop) => Err(stop),
    }
}
