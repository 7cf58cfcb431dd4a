ghost use Rattle.std.specs.Prelude.{◌≡◌, ◌≤◌, ◌++◌, ◌↔◌, IfOk, IfErr, IsTrue, List, MatchResult, length};
ghost use Rattle.line_text.specs.OneLine.{IsLine};
ghost use Rattle.sys_table.specs.ResultsLines.{HasOtherNumber, IsHeadRefusal, IsLinesRefusal, head_refusal_of, refusal_of};
ghost use Rattle.sys_table.specs.ResultsText.{AreResults, AreResultsWithin, IsResultsRefusal, most, results_head};
ghost use Rattle.sys_table.specs.declared.results_error.ResultsError.TheVariants.{OutOfMemory as NoMemory};
ghost use Rattle.sys_table.specs.declared.sys_result.SysResult.{SysResult};

use crate::results_line::{ResultsLine, read_results_line};
use crate::{ResultsError, SysResult};
use line_text::{Cursor, Miss, first_line, version_of};
use std::alloc::Global;

// The greatest length of a file of results, in bytes.
const LONGEST: usize = 67_108_864;

// The greatest number of records.
const MOST: usize = 1_000_000;

/// The records of a file of results, in order; see `ResultsError` for why a text is refused.
pub fn read_results(alloc: Global, text: &[u8]) -> Result<Vec<SysResult>, ResultsError>
    ensures read { IfOk result (λ records. AreResultsWithin text.now records.items) }
    ensures refused { IfErr result (λ error. IsResultsRefusal error text.now) }
    ensures complete { (records : List SysResult) → AreResultsWithin text.now records
        → IfErr result (λ error. error ≡ NoMemory) }
    ensures same { (records : List SysResult) → AreResultsWithin text.now records
        → IfOk result (λ found. found.items ≡ records) }
{
    if LONGEST < text.len() {
        return Err(ResultsError::TooLong);
    }
    let (line, rest) = first_line(text);
    match read_head(line) {
        Ok(()) => read_records(alloc, rest),
        Err(error) => Err(error),
    }
}

// Takes the first line of a file of results.
fn read_head(line: &[u8]) -> Result<(), ResultsError>
    requires { IsLine line.now }
    ensures { MatchResult result (λ _. line.now ≡ results_head)
        (λ error. IsHeadRefusal error line.now) }
{
    if has_other_number(line) {
        return Err(ResultsError::Version);
    }
    match (Cursor { rest: line }).take(b"dyckmon-results 1\n") {
        Ok(()) => Ok(()),
        Err(miss) => Err(refusal_of_head(miss)),
    }
}

// Whether the first line has the number of another version than 1.
fn has_other_number(line: &[u8]) -> bool
    ensures { IsTrue result ↔ HasOtherNumber line.now }
{
    match version_of(line, b"dyckmon-results ") {
        Some(number) => number != 1,
        None => false,
    }
}

// Why a file is refused whose first line was not read.
fn refusal_of_head(miss: Miss) -> ResultsError
    ensures { result ≡ head_refusal_of miss }
{
    match miss {
        Miss::OutOfMemory => ResultsError::OutOfMemory,
        Miss::Short => ResultsError::NoEnd,
        Miss::Wrong => ResultsError::BadLine(1),
    }
}

// The records of the lines after the first.
fn read_records(alloc: Global, text: &[u8]) -> Result<Vec<SysResult>, ResultsError>
    ensures { MatchResult result
        (λ records. AreResults (results_head ++ text.now) records.items × (length records.items ≤ most))
        (λ error. IsLinesRefusal error (results_head ++ text.now)) }
{
    let mut records = Vec::new(alloc);
    let mut rest = text;
    'lines: loop {
        let (line, later) = first_line(rest);
        match read_results_line(alloc, line) {
            Ok(ResultsLine::Record(record)) => {
                if records.len() == MOST {
                    return Err(ResultsError::TooLong);
                }
                records.push(record)?;
                rest = later;
            }
            Ok(ResultsLine::End) => {
                if later.is_empty() {
                    return Ok(records);
                }
                return Err(ResultsError::BadLine(records.len() as u64 + 3));
            }
            Err(miss) => return Err(refusal_of_line(miss, records.len())),
        }
    }
}

// Why a file is refused whose line after so many records was not read.
fn refusal_of_line(miss: Miss, records: usize) -> ResultsError
    requires { records ≤ most }
    ensures { result ≡ refusal_of miss records }
{
    match miss {
        Miss::OutOfMemory => ResultsError::OutOfMemory,
        Miss::Short => ResultsError::NoEnd,
        Miss::Wrong => ResultsError::BadLine(records as u64 + 2),
    }
}
