ghost use Rattle.std.specs.Prelude.{◌≡◌, IfOk};
ghost use Rattle.certify_facts.specs.declared.fact.Judge.TheVariants.{Callgraph, Stack};
ghost use Rattle.tool_reading.specs.Confirm.{certificate_refusal, confirm_refusal, confirmed_text};

use certify::ConfirmError;
use certify_facts::Judge;
use certify_file::CertificateError;
use dm_base::{OutOfMemory, Verdict};
use std::alloc::Global;
use tool_frame::{fixed_line, numbered_line};

/// The line of a confirmed verdict.
pub fn confirmed_line(alloc: Global, judge: Judge, verdict: Verdict) -> Result<Vec<u8>, OutOfMemory>
    ensures { IfOk result (λ line. line.items ≡ confirmed_text judge verdict) }
{
    match judge {
        Judge::Callgraph => callgraph_line(alloc, verdict),
        Judge::Stack => stack_line(alloc, verdict),
    }
}

// The line of a confirmed verdict of the callgraph model.
fn callgraph_line(alloc: Global, verdict: Verdict) -> Result<Vec<u8>, OutOfMemory>
    ensures { IfOk result (λ line. line.items ≡ confirmed_text Callgraph verdict) }
{
    match verdict {
        Verdict::Accepted { events } => numbered_line(
            alloc,
            b"confirmed callgraph accepted ",
            events,
        ),
        Verdict::Rejected { at } => numbered_line(alloc, b"confirmed callgraph rejected ", at),
        Verdict::Bound { .. } => Ok(Vec::new(alloc)),
    }
}

// The line of a confirmed verdict of the abstract-stack model.
fn stack_line(alloc: Global, verdict: Verdict) -> Result<Vec<u8>, OutOfMemory>
    ensures { IfOk result (λ line. line.items ≡ confirmed_text Stack verdict) }
{
    match verdict {
        Verdict::Accepted { events } => numbered_line(alloc, b"confirmed stack accepted ", events),
        Verdict::Rejected { at } => numbered_line(alloc, b"confirmed stack rejected ", at),
        Verdict::Bound { .. } => Ok(Vec::new(alloc)),
    }
}

/// The line of a refused text of a certificate.
pub fn certificate_line(alloc: Global, error: CertificateError) -> Result<Vec<u8>, OutOfMemory>
    ensures { IfOk result (λ line. line.items ≡ certificate_refusal error) }
{
    match error {
        CertificateError::OutOfMemory => fixed_line(alloc, b"out of memory\n"),
        CertificateError::BadLine(line) => numbered_line(alloc, b"record refused Q1 line ", line),
        CertificateError::NoEnd => fixed_line(alloc, b"record refused Q2\n"),
        CertificateError::TooLong => fixed_line(alloc, b"record refused Q3\n"),
        CertificateError::Version => fixed_line(alloc, b"record refused Q4\n"),
    }
}

/// The line of a certificate that isn't confirmed.
pub fn unconfirmed_line(alloc: Global, error: ConfirmError) -> Result<Vec<u8>, OutOfMemory>
    ensures { IfOk result (λ line. line.items ≡ confirm_refusal error) }
{
    match error {
        ConfirmError::OutOfMemory => fixed_line(alloc, b"out of memory\n"),
        ConfirmError::Line(line) => numbered_line(alloc, b"record refused Q5 line ", line),
        ConfirmError::Claim => fixed_line(alloc, b"record refused Q6\n"),
    }
}
