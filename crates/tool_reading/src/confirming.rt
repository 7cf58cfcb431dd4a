ghost use Rattle.std.specs.Prelude.{◌≡◌, ◌≢◌, IfOk, IfErr};
ghost use Rattle.certify.specs.declared.error.ConfirmError.TheVariants.{OutOfMemory as NoMemory};
ghost use Rattle.tool_reading.specs.Confirm.{confirm_refusal};
ghost use Rattle.tool_reading.specs.Stopping.{IsRecordStop, IsShown, StopsClaim};

use crate::lines::{confirmed_line, unconfirmed_line};
use certify::{ConfirmError, confirm};
use certify_facts::Certificate;
use dm_base::{Event, Status};
use flow_model::Model;
use std::alloc::Global;
use tool_frame::{Finished, Stop};

/// Confirms what a certificate claims of a trace in a model, and tells its verdict.
pub fn confirm_claim(
    alloc: Global,
    model: &Model,
    trace: &[Event],
    certificate: &Certificate,
) -> Result<Finished, Stop>
    ensures status { IfOk result (λ done. done.status ≡ Status.Done) }
    ensures shown { IfOk result (λ done. IsShown model.now trace.now certificate.now done.text.items) }
    ensures stop { IfErr result (λ stop. StopsClaim stop model.now trace.now certificate.now) }
{
    let verdict = match confirm(alloc, model, trace, certificate) {
        Ok(verdict) => verdict,
        Err(error) => return Err(unconfirmed_with(alloc, error)),
    };
    let text = confirmed_line(alloc, certificate.judge(), verdict)?;
    Ok(Finished {
        status: Status::Done,
        text,
    })
}

// The stop of a certificate that isn't confirmed.
fn unconfirmed_with(alloc: Global, error: ConfirmError) -> Stop
    ensures { IsRecordStop result (error ≢ NoMemory) (confirm_refusal error) }
{
    if error == ConfirmError::OutOfMemory {
        return Stop::OutOfMemory;
    }
    match unconfirmed_line(alloc, error) {
        Ok(line) => Stop::Record(line),
        Err(_) => Stop::OutOfMemory,
    }
}
