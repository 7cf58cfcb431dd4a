ghost use Rattle.std.specs.Prelude.{◌≡◌, ◌≤◌, IfErr, IfOk, IfSome};
ghost use Rattle.tool_reading.specs.Certify.{TellsCertificate, RefusesToCertify};
ghost use Rattle.tool_files.specs.Inputs.{LacksToJudge};
ghost use Rattle.tool_frame.specs.Stop.{IsFinished, Stops};

use crate::certifying::certify_events;
use certify_facts::Judge;
use dm_io::Store;
use std::alloc::Global;
use tool_files::{events_in, model_in};
use tool_frame::{Finished, Stop};

/// Makes a certificate of the judge's verdict on the trace in a file, by the model in another, and tells its text with
/// the verdict's status. The model is read first.
///
/// # Errors
///
/// `Model` where the first file is no model, `Record` where the second is no trace or more than 1,000,000 facts follow,
/// `Read` where a read failed or a file isn't there, and `OutOfMemory`.
pub fn certify_trace<S: Store>(
    alloc: Global,
    store: &mut S,
    model: &str,
    trace: &str,
    judge: Judge,
) -> Result<Finished, Stop>
    ensures made { IfOk result (λ done. IfSome (S.files store.old) (λ told. TellsCertificate told model.now trace.now judge done.status done.text.items)) }
    ensures finished { IfOk result (λ done. IsFinished done.status) }
    ensures same { S.files store.new ≡ S.files store.old }
    ensures never_falls { S.faults store.old ≤ S.faults store.new }
    ensures stop { IfErr result (λ stop. Stops stop (RefusesToCertify (S.files store.old) model.now trace.now judge) (LacksToJudge (S.files store.old) model.now trace.now) (S.faults store.old) (S.faults store.new)) }
{
    let graph = match model_in(alloc, store, model) {
        Ok(graph) => graph,
        Err(stop) => return Err(stop),
    };
    let events = match events_in(alloc, store, &graph, trace) {
        Ok(events) => events,
        Err(stop) => return Err(stop),
    };
    match certify_events(alloc, &graph, &events, judge) {
        Ok(finished) => Ok(finished),
        Err(stop) => Err(stop),
    }
}
