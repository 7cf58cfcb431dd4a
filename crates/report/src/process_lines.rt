ghost use Rattle.std.specs.Prelude.{◌≡◌, ◌++◌, ◌+◌, ◌<◌, ◌≤◌, All, length, if◌then◌else◌, IfOk, OnOk};
ghost use Rattle.sys_table.specs.Table.{IsRecorded};
ghost use Rattle.report.specs.ProcessLines.{kept_line, window_lines, is_of, how_many, sum_text};

use dm_base::{Event, OutOfMemory, Step, Verdict};
use line_text::{push_bytes, push_decimal};
use std::alloc::Global;
use trace_file::event_text;

/// The lines of these events of a history, which stand right before the one with this number, each
/// with its line feed: `- N EVENT`, where N is the event's number, counted from 1. Each event is
/// recorded. The error is that memory was refused.
pub fn window_lines(alloc: Global, at: u64, window: &[Event]) -> Result<Vec<u8>, OutOfMemory>
    requires { All IsRecorded window.now }
    ensures { IfOk result (λ lines. lines.items ≡ window_lines at window.now) }
{
    let mut lines = Vec::new(alloc);
    let mut number = at.saturating_sub(window.len() as u64);
    for event in window {
        push_kept(alloc, &mut lines, number, event)?;
        number += 1;
    }
    Ok(lines)
}

// Adds the line of the event with this number.
fn push_kept(
    alloc: Global,
    text: &mut Vec<u8>,
    number: u64,
    event: &Event,
) -> Result<(), OutOfMemory>
    requires { IsRecorded event.now }
    ensures { OnOk result (text.new.items ≡ text.old.items ++ kept_line number event.now) }
{
    let written = event_text(alloc, event)?;
    push_bytes(text, b"- ")?;
    push_decimal(alloc, text, number)?;
    push_bytes(text, b" ")?;
    push_bytes(text, &written)?;
    push_bytes(text, b"\n")
}

/// The line of the sum of verdicts with its line feed: `verdicts V accepted A rejected R bound B`,
/// with the number of all verdicts and of those of each kind. The error is that memory was refused.
pub fn sum_line(alloc: Global, verdicts: &[Verdict]) -> Result<Vec<u8>, OutOfMemory>
    ensures { IfOk result (λ line. line.items ≡ sum_text verdicts.now) }
{
    let mut line = Vec::new(alloc);
    push_bytes(&mut line, b"verdicts ")?;
    push_decimal(alloc, &mut line, verdicts.len() as u64)?;
    push_bytes(&mut line, b" accepted ")?;
    push_decimal(alloc, &mut line, how_many(Step::Kept, verdicts))?;
    push_bytes(&mut line, b" rejected ")?;
    push_decimal(alloc, &mut line, how_many(Step::Rejected, verdicts))?;
    push_bytes(&mut line, b" bound ")?;
    push_decimal(alloc, &mut line, how_many(Step::Bound, verdicts))?;
    push_bytes(&mut line, b"\n")?;
    Ok(line)
}

// How many of the verdicts are of this kind.
fn how_many(kind: Step, verdicts: &[Verdict]) -> u64
    ensures { result ≡ how_many kind verdicts.now }
{
    let mut count = 0;
    for verdict in verdicts {
        count += one_if(is_of(kind, verdict));
    }
    count
}

// Whether the verdict is of this kind.
fn is_of(kind: Step, verdict: &Verdict) -> bool
    ensures { result ≡ is_of kind verdict.now }
{
    match (kind, verdict) {
        (Step::Kept, Verdict::Accepted { .. })
        | (Step::Rejected, Verdict::Rejected { .. })
        | (Step::Bound, Verdict::Bound { .. }) => true,
        _ => false,
    }
}

// One where it is so, and else nothing.
fn one_if(yes: bool) -> u64
    ensures { result ≡ (if yes then 1 else 0) }
{
    if yes { 1 } else { 0 }
}
