ghost use Rattle.std.specs.Prelude.{◌≡◌, ◌++◌, ◌≤◌, All, codes, decimal, if◌then◌else◌, IfOk, OnOk};
ghost use Rattle.fleet.specs.Alone.{IsTellable};
ghost use Rattle.sys_table.specs.Table.{IsRecorded};
ghost use Rattle.tool_fleet.specs.Fleet.{fleet_text, how_many, is_of, report_line, standing_text, status_of_all, sum_text};
ghost use Rattle.tool_fleet.specs.Inputs.{IsTellableReport};
ghost use Rattle.tool_frame.specs.Stop.{IsFinished};
ghost use Rattle.trace_file.specs.EventText.{IsCountedOutcome, event_text, outcome_text};

use crate::reports::{ProcessReport, StandingKind};
use dm_base::{Event, OutOfMemory, Outcome, Status};
use fleet::Standing;
use line_text::{push_bytes, push_decimal};
use std::alloc::Global;
use tool_frame::Finished;
use trace_file::{event_text, outcome_text};

// A word and the number of events that were made.
fn open_text(alloc: Global, made: u64) -> Result<Vec<u8>, OutOfMemory>
    ensures { IfOk result (λ text. text.items ≡ codes "open " ++ decimal made) }
{
    let mut text = Vec::new(alloc);
    push_bytes(&mut text, b"open ")?;
    push_decimal(alloc, &mut text, made)?;
    Ok(text)
}

// The same, and how the run ended.
fn ended_text(alloc: Global, made: u64, outcome: &Outcome) -> Result<Vec<u8>, OutOfMemory>
    requires { IsCountedOutcome outcome.now }
    ensures { IfOk result (λ text. text.items ≡ codes "ended " ++ decimal made ++ codes " " ++ outcome_text outcome.now) }
{
    let ending = outcome_text(alloc, outcome)?;
    let mut text = Vec::new(alloc);
    push_bytes(&mut text, b"ended ")?;
    push_decimal(alloc, &mut text, made)?;
    push_bytes(&mut text, b" ")?;
    push_bytes(&mut text, &ending)?;
    Ok(text)
}

// A word, and the number and the text of an event.
fn refused_text(alloc: Global, word: &[u8], at: u64, event: &Event) -> Result<Vec<u8>, OutOfMemory>
    requires { IsRecorded event.now }
    ensures { IfOk result (λ text. text.items ≡ word.now ++ decimal at ++ codes " " ++ event_text event.now) }
{
    let written = event_text(alloc, event)?;
    let mut text = Vec::new(alloc);
    push_bytes(&mut text, word)?;
    push_decimal(alloc, &mut text, at)?;
    push_bytes(&mut text, b" ")?;
    push_bytes(&mut text, &written)?;
    Ok(text)
}

// What a process has come to.
fn standing_text(alloc: Global, standing: &Standing) -> Result<Vec<u8>, OutOfMemory>
    requires { IsTellable standing.now }
    ensures { IfOk result (λ text. text.items ≡ standing_text standing.now) }
{
    match standing {
        Standing::Open { made } => open_text(alloc, *made),
        Standing::Ended { made, outcome } => ended_text(alloc, *made, outcome),
        Standing::Rejected { at, event } => refused_text(alloc, b"rejected ", *at, event),
        Standing::Bound { at, event } => refused_text(alloc, b"bound ", *at, event),
    }
}

// Adds the line of a process.
fn push_report(alloc: Global, text: &mut Vec<u8>, report: &ProcessReport) -> Result<(), OutOfMemory>
    requires { IsTellableReport report.now }
    ensures { OnOk result (text.new.items ≡ text.old.items ++ report_line report.now) }
{
    let said = standing_text(alloc, &report.standing)?;
    push_decimal(alloc, text, u64::from(report.pid))?;
    push_bytes(text, b" ")?;
    push_bytes(text, &said)?;
    push_bytes(text, b"\n")
}

// Whether a process has come to this.
fn is_of(kind: StandingKind, standing: &Standing) -> bool
    ensures { result ≡ is_of kind standing.now }
{
    match (kind, standing) {
        (StandingKind::Open, Standing::Open { .. })
        | (StandingKind::Ended, Standing::Ended { .. })
        | (StandingKind::Rejected, Standing::Rejected { .. })
        | (StandingKind::Bound, Standing::Bound { .. }) => true,
        _ => false,
    }
}

// One where it is so, and else nothing.
fn one_if(yes: bool) -> u64
    ensures { result ≡ (if yes then 1 else 0) }
{
    if yes { 1 } else { 0 }
}

// How many of the processes have come to this.
fn how_many(kind: StandingKind, reports: &[ProcessReport]) -> u64
    ensures { result ≡ how_many kind reports.now }
{
    let mut count = 0;
    for report in reports {
        count += one_if(is_of(kind, &report.standing));
    }
    count
}

// The line of the sum.
fn sum_line(alloc: Global, reports: &[ProcessReport]) -> Result<Vec<u8>, OutOfMemory>
    ensures { IfOk result (λ line. line.items ≡ sum_text reports.now) }
{
    let mut line = Vec::new(alloc);
    push_bytes(&mut line, b"fleet processes ")?;
    push_decimal(alloc, &mut line, reports.len() as u64)?;
    push_bytes(&mut line, b" open ")?;
    push_decimal(alloc, &mut line, how_many(StandingKind::Open, reports))?;
    push_bytes(&mut line, b" ended ")?;
    push_decimal(alloc, &mut line, how_many(StandingKind::Ended, reports))?;
    push_bytes(&mut line, b" rejected ")?;
    push_decimal(alloc, &mut line, how_many(StandingKind::Rejected, reports))?;
    push_bytes(&mut line, b" bound ")?;
    push_decimal(alloc, &mut line, how_many(StandingKind::Bound, reports))?;
    push_bytes(&mut line, b"\n")?;
    Ok(line)
}

// The lines of all processes, and their sum.
fn fleet_text(alloc: Global, reports: &[ProcessReport]) -> Result<Vec<u8>, OutOfMemory>
    requires { All IsTellableReport reports.now }
    ensures { IfOk result (λ text. text.items ≡ fleet_text reports.now) }
{
    let mut text = Vec::new(alloc);
    for report in reports {
        push_report(alloc, &mut text, report)?;
    }
    let sum = sum_line(alloc, reports)?;
    push_bytes(&mut text, &sum)?;
    Ok(text)
}

// Rejected where a process is rejected, else Bound where one is at its bound, else Done.
fn status_of_all(reports: &[ProcessReport]) -> Status
    ensures status { result ≡ status_of_all reports.now }
    ensures finished { IsFinished result }
{
    if how_many(StandingKind::Rejected, reports) != 0 {
        return Status::Rejected;
    }
    if how_many(StandingKind::Bound, reports) != 0 {
        return Status::Bound;
    }
    Status::Done
}

/// The lines of all processes and their sum, with the status of what they have come to.
pub fn conclude(alloc: Global, reports: &[ProcessReport]) -> Result<Finished, OutOfMemory>
    requires { All IsTellableReport reports.now }
    ensures status { IfOk result (λ done. done.status ≡ status_of_all reports.now) }
    ensures finished { IfOk result (λ done. IsFinished done.status) }
    ensures text { IfOk result (λ done. done.text.items ≡ fleet_text reports.now) }
{
    Ok(Finished {
        status: status_of_all(reports),
        text: fleet_text(alloc, reports)?,
    })
}
