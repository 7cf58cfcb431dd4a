ghost use Rattle.std.specs.Prelude.{◌≡◌, ◌≤◌, ◌++◌, ◌↔◌, IfOk, IfErr, IsTrue, MatchResult, length};
ghost use Rattle.line_text.specs.OneLine.{IsLine};
ghost use Rattle.certify_facts.specs.Form.{IsCounted};
ghost use Rattle.certify_facts.specs.Told.{Told};
ghost use Rattle.certify_file.specs.CertificateText.{IsCertificate, IsCertificateRefusal, IsCertificateWithin, certificate_head, most, verdict_line, which_line};
ghost use Rattle.certify_file.specs.Lines.{HasOtherNumber, IsHeadRefusal, IsLinesRefusal, refusal_of};
ghost use Rattle.certify_file.specs.declared.error.CertificateError.TheVariants.{OutOfMemory as NoMemory};

use crate::CertificateError;
use crate::head::{read_verdict_line, read_which_line};
use crate::line::{CertificateLine, read_certificate_line};
use certify_facts::{Certificate, Judge};
use dm_base::Verdict;
use line_text::{Cursor, Miss, first_line, version_of};
use std::alloc::Global;

// The greatest length of a text, in bytes.
const LONGEST: usize = 67_108_864;

// The greatest number of lines of facts.
const MOST: usize = 1_000_000;

/// The certificate of which this is the text; see `CertificateError` for why a text is refused.
pub fn read_certificate(alloc: Global, text: &[u8]) -> Result<Certificate, CertificateError>
    ensures read { IfOk result (λ certificate. IsCertificateWithin text.now certificate) }
    ensures refused { IfErr result (λ error. IsCertificateRefusal error text.now) }
    ensures complete { (certificate : Told) → IsCertificateWithin text.now certificate
        → IfErr result (λ error. error ≡ NoMemory) }
    ensures same { (certificate : Told) → IsCertificateWithin text.now certificate
        → IfOk result (λ found. found ≡ certificate) }
{
    if LONGEST < text.len() {
        return Err(CertificateError::TooLong);
    }
    let (line, rest) = first_line(text);
    match read_head(line) {
        Ok(()) => read_judged(alloc, rest),
        Err(error) => Err(error),
    }
}

// Takes the first line of a certificate.
fn read_head(line: &[u8]) -> Result<(), CertificateError>
    requires { IsLine line.now }
    ensures { MatchResult result (λ _. line.now ≡ certificate_head)
        (λ error. IsHeadRefusal error line.now) }
{
    if has_other_number(line) {
        return Err(CertificateError::Version);
    }
    match (Cursor { rest: line }).take(b"dyckmon-certificate 1\n") {
        Ok(()) => Ok(()),
        Err(miss) => Err(refusal_after(miss, 0)),
    }
}

// Whether the first line has the number of another version than 1.
fn has_other_number(line: &[u8]) -> bool
    ensures { IsTrue result ↔ HasOtherNumber line.now }
{
    match version_of(line, b"dyckmon-certificate ") {
        Some(number) => number != 1,
        None => false,
    }
}

// The certificate with these lines after the first.
fn read_judged(alloc: Global, text: &[u8]) -> Result<Certificate, CertificateError>
    ensures { MatchResult result
        (λ c. IsCertificate (certificate_head ++ text.now) c × (length c.lines ≤ most))
        (λ error. IsLinesRefusal error (certificate_head ++ text.now)) }
{
    let (line, rest) = first_line(text);
    match read_which_line(line) {
        Ok(judge) => read_claimed(alloc, judge, rest),
        Err(miss) => Err(refusal_after(miss, 1)),
    }
}

// The certificate of this judge with these lines after the second.
fn read_claimed(alloc: Global, judge: Judge, text: &[u8]) -> Result<Certificate, CertificateError>
    ensures { MatchResult result
        (λ c. IsCertificate (certificate_head ++ (which_line judge ++ text.now)) c × (length c.lines ≤ most))
        (λ error. IsLinesRefusal error (certificate_head ++ (which_line judge ++ text.now))) }
{
    let (line, rest) = first_line(text);
    match read_verdict_line(line) {
        Ok(verdict) => read_facts(alloc, judge, verdict, rest),
        Err(miss) => Err(refusal_after(miss, 2)),
    }
}

// The certificate of this judge and this verdict with these lines after the third.
fn read_facts(
    alloc: Global,
    judge: Judge,
    verdict: Verdict,
    text: &[u8],
) -> Result<Certificate, CertificateError>
    requires { IsCounted verdict }
    ensures { MatchResult result
        (λ c. IsCertificate (certificate_head ++ (which_line judge ++ (verdict_line verdict ++ text.now))) c × (length c.lines ≤ most))
        (λ error. IsLinesRefusal error (certificate_head ++ (which_line judge ++ (verdict_line verdict ++ text.now)))) }
{
    let mut facts = Vec::new(alloc);
    let mut rest = text;
    'lines: loop {
        let (line, later) = first_line(rest);
        match read_certificate_line(judge, line) {
            Ok(CertificateLine::Fact(fact)) => {
                if facts.len() == MOST {
                    return Err(CertificateError::TooLong);
                }
                facts.push(fact)?;
                rest = later;
            }
            Ok(CertificateLine::End) => {
                if later.is_empty() {
                    return Ok(Certificate::new(judge, verdict, facts));
                }
                return Err(CertificateError::BadLine(facts.len() as u64 + 5));
            }
            Err(miss) => return Err(refusal_after(miss, facts.len() + 3)),
        }
    }
}

// Why a text is refused whose line after so many lines was not read.
fn refusal_after(miss: Miss, count: usize) -> CertificateError
    requires { count ≤ 1000003 }
    ensures { result ≡ refusal_of miss count }
{
    match miss {
        Miss::OutOfMemory => CertificateError::OutOfMemory,
        Miss::Short => CertificateError::NoEnd,
        Miss::Wrong => CertificateError::BadLine(count as u64 + 1),
    }
}
