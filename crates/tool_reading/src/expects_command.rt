ghost use Rattle.std.specs.Prelude.{◌≡◌, ◌≤◌, ◌<◌, ◌^◌, IfOk, IfErr, IfSome};
ghost use Rattle.tool_reading.specs.Expects.{Expects};
ghost use Rattle.tool_files.specs.Inputs.{RefusesToJudge, LacksToJudge};
ghost use Rattle.tool_frame.specs.Stop.{IsFinished, Stops};
ghost use Rattle.tool_monitors.specs.Monitors.{monitors_of};

use crate::expecting::findings;
use dm_io::Store;
use std::alloc::Global;
use tool_files::{events_in, model_in};
use tool_frame::{Finished, Stop};
use tool_monitors::Asked;

/// Judges the trace in a file by the monitors that are asked for, of the model in another, and tells
/// after each verdict what may come next after the events that the monitor keeps: the functions in
/// which it may stand, the system calls with their patterns, and in the Dyck model the sites that may
/// be opened and closed.
///
/// # Errors
///
/// `Model` where the first file is no model, `Record` where the second is no trace, `Read` where a read
/// failed or a file isn't there, and `OutOfMemory`.
pub fn expected_command<S: Store>(
    alloc: Global,
    store: &mut S,
    model: &str,
    trace: &str,
    asked: Asked,
    bound: u32,
) -> Result<Finished, Stop>
    requires { (1 ≤ bound) × (bound < 2 ^ 16) }
    ensures expected { IfOk result (λ done. IfSome (S.files store.old) (λ told. Expects told model.now trace.now (monitors_of asked) bound done.status done.text.items)) }
    ensures finished { IfOk result (λ done. IsFinished done.status) }
    ensures same { S.files store.new ≡ S.files store.old }
    ensures never_falls { S.faults store.old ≤ S.faults store.new }
    ensures stop { IfErr result (λ stop. Stops stop (RefusesToJudge (S.files store.old) model.now trace.now) (LacksToJudge (S.files store.old) model.now trace.now) (S.faults store.old) (S.faults store.new)) }
{
    let graph = model_in(alloc, store, model)?;
    let events = match events_in(alloc, store, &graph, trace) {
        Ok(events) => events,
        Err(stop) => return Err(stop),
    };
    let finished = findings(alloc, &graph, &events, asked, bound)?;
    Ok(finished)
}
