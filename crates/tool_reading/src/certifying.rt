ghost use Rattle.std.specs.Prelude.{◌≡◌, IfOk, IfErr, codes};
ghost use Rattle.certify_making.specs.declared.error.CertifyError.TheVariants.{TooLarge};
ghost use Rattle.tool_reading.specs.Certify.{IsCertified, status_of};
ghost use Rattle.tool_frame.specs.Stop.{IsFinished};
ghost use Rattle.tool_reading.specs.Stopping.{IsRecordStop, StopsMaking};

use certify_facts::Judge;
use certify_file::write_certificate;
use certify_making::{CertifyError, certify};
use dm_base::{Event, Status, Verdict};
use flow_model::Model;
use std::alloc::Global;
use tool_frame::{Finished, Stop, fixed_line};

// The status of a verdict.
fn status_of(verdict: Verdict) -> Status
    ensures status { result ≡ status_of verdict }
    ensures finished { IsFinished result }
{
    match verdict {
        Verdict::Accepted { .. } => Status::Done,
        Verdict::Rejected { .. } => Status::Rejected,
        Verdict::Bound { .. } => Status::Bound,
    }
}

/// Makes a certificate of the judge's verdict on the trace in the model, and tells it with the verdict's status.
pub fn certify_events(
    alloc: Global,
    model: &Model,
    trace: &[Event],
    judge: Judge,
) -> Result<Finished, Stop>
    ensures certified { IfOk result (λ done. IsCertified judge model.now trace.now done.status done.text.items) }
    ensures finished { IfOk result (λ done. IsFinished done.status) }
    ensures stop { IfErr result (λ stop. StopsMaking stop judge model.now trace.now) }
{
    let certificate = match certify(alloc, judge, model, trace) {
        Ok(certificate) => certificate,
        Err(error) => return Err(unmade_with(alloc, error)),
    };
    let text = write_certificate(alloc, &certificate)?;
    let status = status_of(certificate.verdict());
    Ok(Finished { status, text })
}

// The stop where more facts follow than a certificate may have.
fn too_large(alloc: Global) -> Stop
    ensures { IsRecordStop result (Unit {0}) (codes "record refused Q3\n") }
{
    match fixed_line(alloc, b"record refused Q3\n") {
        Ok(line) => Stop::Record(line),
        Err(_) => Stop::OutOfMemory,
    }
}

// The stop where no certificate is made.
fn unmade_with(alloc: Global, error: CertifyError) -> Stop
    ensures { IsRecordStop result (error ≡ TooLarge) (codes "record refused Q3\n") }
{
    match error {
        CertifyError::OutOfMemory => Stop::OutOfMemory,
        CertifyError::TooLarge => too_large(alloc),
    }
}
