ghost use Rattle.std.specs.Prelude.{◌≡◌, ◌≤◌, IfOk, IfErr, IfSome};
ghost use Rattle.tool_reading.specs.Confirm.{TellsConfirmed, RefusesToConfirm, LacksToConfirm};
ghost use Rattle.tool_frame.specs.Stop.{Stops};

use crate::certificates::certificate_in;
use crate::confirming::confirm_claim;
use dm_base::Status;
use dm_io::Store;
use std::alloc::Global;
use tool_files::{events_in, model_in};
use tool_frame::{Finished, Stop};

/// Confirms the certificate in a file against the model and the trace in two others, and tells its verdict, which is then the
/// verdict on the trace, whoever made the certificate. The files are read in the order of the words.
///
/// # Errors
///
/// `Model` where the first file is no model, `Record` where the second is no trace, the third no certificate, or the
/// certificate isn't confirmed, `Read` where a read failed or a file isn't there, and `OutOfMemory`.
pub fn confirm_certificate<S: Store>(
    alloc: Global,
    store: &mut S,
    model: &str,
    trace: &str,
    certificate: &str,
) -> Result<Finished, Stop>
    ensures made { IfOk result (λ done. IfSome (S.files store.old) (λ told. TellsConfirmed told model.now trace.now certificate.now done.text.items)) }
    ensures status { IfOk result (λ done. done.status ≡ Status.Done) }
    ensures same { S.files store.new ≡ S.files store.old }
    ensures never_falls { S.faults store.old ≤ S.faults store.new }
    ensures stop { IfErr result (λ stop. Stops stop (RefusesToConfirm (S.files store.old) model.now trace.now certificate.now) (LacksToConfirm (S.files store.old) model.now trace.now certificate.now) (S.faults store.old) (S.faults store.new)) }
{
    let graph = match model_in(alloc, store, model) {
        Ok(graph) => graph,
        Err(stop) => return Err(stop),
    };
    let events = match events_in(alloc, store, &graph, trace) {
        Ok(events) => events,
        Err(stop) => return Err(stop),
    };
    let claim = match certificate_in(alloc, store, certificate) {
        Ok(claim) => claim,
        Err(stop) => return Err(stop),
    };
    match confirm_claim(alloc, &graph, &events, &claim) {
        Ok(finished) => Ok(finished),
        Err(stop) => Err(stop),
    }
}
