ghost use Rattle.std.specs.Prelude.{◌≡◌, ◌≢◌, ◌≤◌, IfOk, IfErr, IfSome};
ghost use Rattle.dm_io.specs.Store.{file_at, IsMissing};
ghost use Rattle.certify_file.specs.CertificateText.{IsCertificateWithin};
ghost use Rattle.certify_file.specs.declared.error.CertificateError.TheVariants.{OutOfMemory as NoMemory};
ghost use Rattle.tool_reading.specs.Confirm.{RefusesText, certificate_refusal};
ghost use Rattle.tool_reading.specs.Stopping.{IsRecordStop};
ghost use Rattle.tool_frame.specs.Stop.{Stops};

use crate::lines::certificate_line;
use certify_facts::Certificate;
use certify_file::{CertificateError, read_certificate};
use dm_io::{Store, read_whole};
use std::alloc::Global;
use tool_frame::Stop;

// One byte more than the text of a certificate may have.
const MOST: usize = 67_108_865;

/// The certificate in a file.
pub fn certificate_in<S: Store>(
    alloc: Global,
    store: &mut S,
    name: &str,
) -> Result<Certificate, Stop>
    ensures certificate { IfOk result (λ c. IfSome (S.files store.old) (λ told. IsCertificateWithin (file_at told name.now) c)) }
    ensures stop { IfErr result (λ stop. Stops stop (RefusesText (S.files store.old) name.now) (IsMissing (S.files store.old) name.now) (S.faults store.old) (S.faults store.new)) }
    ensures same { S.files store.new ≡ S.files store.old }
    ensures never_falls { S.faults store.old ≤ S.faults store.new }
{
    let text = read_whole(alloc, store, name, MOST)?;
    match read_certificate(alloc, &text) {
        Ok(certificate) => Ok(certificate),
        Err(error) => Err(refused_with(alloc, error)),
    }
}

// The stop of a refused text.
fn refused_with(alloc: Global, error: CertificateError) -> Stop
    ensures { IsRecordStop result (error ≢ NoMemory) (certificate_refusal error) }
{
    if error == CertificateError::OutOfMemory {
        return Stop::OutOfMemory;
    }
    match certificate_line(alloc, error) {
        Ok(line) => Stop::Record(line),
        Err(_) => Stop::OutOfMemory,
    }
}
