ghost use Rattle.std.specs.Prelude.{◌≡◌, ◌≤◌, ◌<◌, ◌^◌, IfOk, IfErr, IfSome};
ghost use Rattle.dm_base.specs.declared.outcome.TraceEnd.{TraceEnd};
ghost use Rattle.dm_io.specs.Store.{file_at};
ghost use Rattle.tool_files.specs.Reading.{IsTraceFollowed, StopsTrace};
ghost use Rattle.tool_monitors.specs.Told.{IsTraceTold};
ghost use Rattle.trace_file.specs.Trace.{IsTraceWithin};

use crate::collected::Collected;
use crate::reading::read_to_end;
use crate::trace_follower::TraceFollower;
use dm_base::Event;
use dm_io::Store;
use flow_model::Model;
use std::alloc::Global;
use tool_frame::{Finished, Stop};
use tool_monitors::Panel;

// Has a panel follow the trace in a file.
fn follow<S: Store, P: Panel>(
    alloc: Global,
    store: &mut S,
    model: &Model,
    trace: &str,
    bound: u32,
) -> Result<P, Stop>
    requires { (1 ≤ bound) × (bound < 2 ^ 16) }
    ensures followed { IfOk result (λ panel. IsTraceFollowed (S.files store.old) trace.now (λ events. P.judged panel model.now bound events)) }
    ensures same { S.files store.new ≡ S.files store.old }
    ensures stop { IfErr result (λ stop. StopsTrace stop (S.files store.old) trace.now (S.faults store.old) (S.faults store.new)) }
    ensures never_falls { S.faults store.old ≤ S.faults store.new }
{
    let mut follower = TraceFollower::<P>::open(alloc, model, bound)?;
    match read_to_end(alloc, store, trace, &mut follower, model) {
        Ok(()) => {}
        Err(stop) => return Err(stop),
    }
    match follower.conclude(alloc) {
        Ok(panel) => Ok(panel),
        Err(stop) => Err(stop),
    }
}

/// Has a panel follow the trace in a file, and tell what it found.
pub fn follow_by<S: Store, P: Panel>(
    alloc: Global,
    store: &mut S,
    model: &Model,
    trace: &str,
    bound: u32,
) -> Result<Finished, Stop>
    requires { (1 ≤ bound) × (bound < 2 ^ 16) }
    ensures told { IfOk result (λ done. IsTraceTold (S.files store.old) trace.now (P.tells model.now bound) done.status done.text.items) }
    ensures same { S.files store.new ≡ S.files store.old }
    ensures stop { IfErr result (λ stop. StopsTrace stop (S.files store.old) trace.now (S.faults store.old) (S.faults store.new)) }
    ensures never_falls { S.faults store.old ≤ S.faults store.new }
{
    let panel = match follow::<S, P>(alloc, store, model, trace, bound) {
        Ok(panel) => panel,
        Err(stop) => return Err(stop),
    };
    let finished = panel.finish(alloc)?;
    Ok(finished)
}

/// The events of the trace in a file.
///
/// # Errors
///
/// `Record` where the file is no trace within the limits, `Read` where a read failed or the file isn't there, and `OutOfMemory`.
pub fn events_in<S: Store>(
    alloc: Global,
    store: &mut S,
    model: &Model,
    trace: &str,
) -> Result<Vec<Event>, Stop>
    ensures events { IfOk result (λ events. IfSome (S.files store.old) (λ told. (end : TraceEnd) × IsTraceWithin (file_at told trace.now) events.items end)) }
    ensures same { S.files store.new ≡ S.files store.old }
    ensures stop { IfErr result (λ stop. StopsTrace stop (S.files store.old) trace.now (S.faults store.old) (S.faults store.new)) }
    ensures never_falls { S.faults store.old ≤ S.faults store.new }
{
    match follow::<S, Collected>(alloc, store, model, trace, 1) {
        Ok(collected) => Ok(collected.into_events()),
        Err(stop) => Err(stop),
    }
}
