ghost use Rattle.std.specs.Prelude.{◌≤◌, ◌<◌, ◌^◌, ℕ, List, [], ◌++◌, All, length, None, IfOk, IfErr, OnOk};
ghost use Rattle.dm_base.specs.declared.event.Event.{Event};
ghost use Rattle.dm_base.specs.declared.outcome.TraceEnd.{TraceEnd};
ghost use Rattle.flow_model.specs.Graph.{Graph};
ghost use Rattle.sys_table.specs.Table.{IsRecorded};
ghost use Rattle.trace_file.specs.Trace.{longest, most, IsTraceWithin, IsTraceRefusal};
ghost use Rattle.tool_files.specs.Reading.{IsOpen, IsAt, StopsText};

use crate::follower::Follower;
use crate::reading::refused_with;
use dm_base::{Event, OutOfMemory};
use flow_model::Model;
use std::alloc::Global;
use tool_frame::Stop;
use tool_monitors::Panel;
use trace_file::{TraceError, TraceReader};

/// A panel that follows a trace: the reader of its file, and why the trace was refused, where it was.
#[derive(Drop)]
pub struct TraceFollower<P: Panel> {
    reader: TraceReader,
    refused: Option<TraceError>,
    panel: P,
}

// Has the panel judge the events in their order.
fn take_events<P: Panel>(
    alloc: Global,
    panel: &mut P,
    model: &Model,
    events: &[Event],
) -> Result<(), OutOfMemory>
    requires judged { (k : ℕ) × (h : List Event) × P.judged panel.old model.now k h × (length (h ++ events.now) ≤ most) }
    requires recorded { All IsRecorded events.now }
    ensures { OnOk result ((k : ℕ) (h : List Event) → P.judged panel.old model.now k h → P.judged panel.new model.now k (h ++ events.now)) }
{
    for event in events {
        panel.take(alloc, model, event)?;
    }
    Ok(())
}

// Feeds the reader the next bytes, and has the panel judge the events that they complete. Answers
// why the trace is refused, where it is.
fn judge_piece<P: Panel>(
    alloc: Global,
    reader: &mut TraceReader,
    panel: &mut P,
    model: &Model,
    piece: &[u8],
) -> Result<Option<TraceError>, OutOfMemory>
    requires { (k : ℕ) × (text : List ℕ) × IsOpen reader.old (λ h. P.judged panel.old model.now k h) text }
    ensures { IfOk result (λ refused. (k : ℕ) (text : List ℕ) → IsOpen reader.old (λ h. P.judged panel.old model.now k h) text
        → IsAt IsTraceRefusal refused (λ t. IsOpen reader.new (λ h. P.judged panel.new model.now k h) t) (text ++ piece.now)) }
{
    match reader.feed(piece) {
        Ok(events) => {
            take_events(alloc, panel, model, &events)?;
            Ok(None)
        }
        Err(error) => {
            if error == TraceError::OutOfMemory {
                return Err(OutOfMemory);
            }
            Ok(Some(error))
        }
    }
}

impl<P: Panel> TraceFollower<P> {
    /// A follower that was given nothing.
    pub fn open(alloc: Global, model: &Model, bound: u32) -> Result<Self, OutOfMemory>
        requires { (1 ≤ bound) × (bound < 2 ^ 16) }
        ensures { IfOk result (λ f. IsAt IsTraceRefusal f.refused (λ t. IsOpen f.reader (λ h. P.judged f.panel model.now bound h) t) []) }
    {
        Ok(TraceFollower {
            reader: TraceReader::new(alloc)?,
            refused: None,
            panel: P::open(alloc, model, bound)?,
        })
    }

    /// Ends the reading of the whole file: gives the panel, or says why the trace is refused.
    pub fn conclude(self, alloc: Global) -> Result<P, Stop>
        ensures judged { IfOk result (λ panel. (g : Graph) (k : ℕ) (text : List ℕ) → IsAt IsTraceRefusal self.refused (λ t. IsOpen self.reader (λ h. P.judged self.panel g k h) t) text
            → (events : List Event) × (end : TraceEnd) × IsTraceWithin text events end × P.judged panel g k events) }
        ensures stop { IfErr result (λ stop. (g : Graph) (k : ℕ) (text : List ℕ) → IsAt IsTraceRefusal self.refused (λ t. IsOpen self.reader (λ h. P.judged self.panel g k h) t) text
            → length text ≤ longest → StopsText IsTraceRefusal stop text) }
    {
        let TraceFollower {
            reader,
            refused,
            panel,
        } = self;
        match refused {
            Some(error) => return Err(refused_with(alloc, error)),
            None => {}
        }
        match reader.finish() {
            Ok(_) => Ok(panel),
            Err(error) => Err(refused_with(alloc, error)),
        }
    }
}

impl<P: Panel> Follower for TraceFollower<P> {
    ghost followed = { λ f g k text. IsAt IsTraceRefusal f.refused (λ t. IsOpen f.reader (λ h. P.judged f.panel g k h) t) text };

    fn take(&mut self, alloc: Global, model: &Model, piece: &[u8]) -> Result<(), OutOfMemory> {
        match &self.refused {
            Some(_) => return Ok(()),
            None => {}
        }
        let refused = judge_piece(alloc, &mut self.reader, &mut self.panel, model, piece)?;
        self.refused = refused;
        Ok(())
    }
}
