ghost use Rattle.std.specs.Prelude.{◌≡◌, ◌++◌, codes, decimal, IfOk, IfSome};
ghost use Rattle.std.specs.Option.{option_copied};
ghost use Rattle.sys_table.specs.Table.{IsRecorded};
ghost use Rattle.trace_file.specs.EventText.{event_text};
ghost use Rattle.report.specs.Precision.{precision_text, next_text};
ghost use Rattle.report.specs.VerdictLine.{word_of, place_line, verdict_text, IsGiven};

use crate::Precision;
use dm_base::{Event, OutOfMemory, Verdict};
use flow_model::Which;
use line_text::{push_bytes, push_decimal};
use std::alloc::Global;
use trace_file::event_text;

/// The word that asks for a monitor, with which its line begins: `callgraph`, `stack` or `dyck`.
pub fn name_of(which: Which) -> &'static [u8]
    ensures { result.now ≡ word_of which }
{
    match which {
        Which::Callgraph => b"callgraph",
        Which::Stack => b"stack",
        Which::Dyck => b"dyck",
    }
}

/// The line of a verdict with its line feed: `NAME accepted N` with the number of events, or `NAME
/// rejected N EVENT` or `NAME bound N EVENT` with the number and the text of the event at which the
/// trace was refused. The event is given exactly where the verdict is not Accepted, and it is
/// recorded. The error is that memory was refused.
pub fn verdict_line(
    alloc: Global,
    which: Which,
    verdict: &Verdict,
    event: Option<&Event>,
) -> Result<Vec<u8>, OutOfMemory>
    requires given { IsGiven verdict.now (option_copied event) }
    requires recorded { IfSome event (λ e. IsRecorded e.now) }
    ensures { IfOk result (λ line. line.items ≡ verdict_text which verdict.now (option_copied event.entry)) }
{
    match (verdict, event) {
        (Verdict::Accepted { events }, _) => accepted_line(alloc, which, *events),
        (Verdict::Rejected { at }, Some(event)) => {
            line_at(alloc, which, b" rejected ", *at, event)
        }
        (Verdict::Bound { at }, Some(event)) => line_at(alloc, which, b" bound ", *at, event),
        (_, None) => Ok(Vec::new(alloc)),
    }
}

/// The line of a model's precision with its line feed: `NAME prefixes N branching S`. The error is
/// that memory was refused.
pub fn precision_line(
    alloc: Global,
    which: Which,
    precision: &Precision,
) -> Result<Vec<u8>, OutOfMemory>
    ensures { IfOk result (λ line. line.items ≡ precision_text which precision.now) }
{
    let mut line = Vec::new(alloc);
    push_bytes(&mut line, name_of(which))?;
    push_bytes(&mut line, b" prefixes ")?;
    push_decimal(alloc, &mut line, precision.prefixes)?;
    push_bytes(&mut line, b" branching ")?;
    push_decimal(alloc, &mut line, precision.sum)?;
    push_bytes(&mut line, b"\n")?;
    Ok(line)
}

/// The line of the numbers of names that may come next in the three models, with its line feed:
/// `next C S D`. The error is that memory was refused.
pub fn next_line(
    alloc: Global,
    callgraph: u32,
    stack: u32,
    dyck: u32,
) -> Result<Vec<u8>, OutOfMemory>
    ensures { IfOk result (λ line. line.items ≡ next_text callgraph stack dyck) }
{
    let mut line = Vec::new(alloc);
    push_bytes(&mut line, b"next ")?;
    push_decimal(alloc, &mut line, u64::from(callgraph))?;
    push_bytes(&mut line, b" ")?;
    push_decimal(alloc, &mut line, u64::from(stack))?;
    push_bytes(&mut line, b" ")?;
    push_decimal(alloc, &mut line, u64::from(dyck))?;
    push_bytes(&mut line, b"\n")?;
    Ok(line)
}

// The line of a monitor that kept so many events.
fn accepted_line(alloc: Global, which: Which, count: u64) -> Result<Vec<u8>, OutOfMemory>
    ensures { IfOk result (λ line. line.items ≡ word_of which ++ codes " accepted " ++ decimal count ++ codes "\n") }
{
    let mut line = Vec::new(alloc);
    push_bytes(&mut line, name_of(which))?;
    push_bytes(&mut line, b" accepted ")?;
    push_decimal(alloc, &mut line, count)?;
    push_bytes(&mut line, b"\n")?;
    Ok(line)
}

// The line of a monitor that says this of the event with this number.
fn line_at(
    alloc: Global,
    which: Which,
    said: &[u8],
    at: u64,
    event: &Event,
) -> Result<Vec<u8>, OutOfMemory>
    requires { IsRecorded event.now }
    ensures { IfOk result (λ line. line.items ≡ place_line which said.now at event.now) }
{
    let text = event_text(alloc, event)?;
    let mut line = Vec::new(alloc);
    push_bytes(&mut line, name_of(which))?;
    push_bytes(&mut line, said)?;
    push_decimal(alloc, &mut line, at)?;
    push_bytes(&mut line, b" ")?;
    push_bytes(&mut line, &text)?;
    push_bytes(&mut line, b"\n")?;
    Ok(line)
}
