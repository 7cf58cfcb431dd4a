ghost use Rattle.std.specs.Prelude.{◌≡◌, ◌+◌, ◌<◌, ◌≤◌, ◌^◌, ℕ, List, [], ◌∷◌, ◌++◌, length, IfOk, Option, None, Some, is_none};
ghost use Rattle.std.specs.Option.{option_copied};
ghost use Rattle.circular_buffer.specs.Buffer.{buffer};
ghost use Rattle.dm_base.specs.declared.event.Event.{Event as Event'};
ghost use Rattle.dm_base.specs.declared.verdict.Verdict.{Verdict as Verdict'};
ghost use Rattle.flow_model.specs.declared.which.Which.{Which};
ghost use Rattle.flow_model.specs.Graph.{Graph};
ghost use Rattle.flow_model.specs.Verdict.{IsAccepted, IsStep, IsVerdict};
ghost use Rattle.watch.specs.Keeping.{verdict_of};
ghost use Rattle.watch.specs.Pasts.{IsPast, last_kept, refused_event};

use circular_buffer::HeapCircularBuffer;
use dm_base::{Event, OutOfMemory, Step, Verdict};
use std::alloc::Global;

/// So many events are kept in a window.
const WINDOW: usize = 8;

/// A verdict that is not Accepted, and the event at which it came.
#[derive(Drop)]
pub struct Refusal {
    pub verdict: Verdict,
    pub event: Event,
}

/// What is still at hand of a history: how many events were kept, the last of them, and where it was
/// refused.
#[derive(Drop)]
pub struct Past {
    pub kept: u64,
    pub window: HeapCircularBuffer<Event>,
    // It stands last, since a record of a process that isn't refused touches no more of it than its first word.
    pub refusal: Option<Refusal>,
}

impl Past {
    /// The past of the empty history.
    pub fn new(alloc: Global) -> Result<Past, OutOfMemory>
        ensures { IfOk result (λ past. (which : Which) (g : Graph) (k : ℕ) → IsAccepted which g k [] → IsPast which g k [] past) }
    {
        Ok(Past {
            kept: 0,
            refusal: None,
            window: HeapCircularBuffer::with_capacity(alloc, WINDOW)?,
        })
    }

    /// An equal past.
    pub fn copy(&self, alloc: Global) -> Result<Past, OutOfMemory>
        requires { self.now.window.capacity ≡ 8 }
        ensures { IfOk result (λ past. past ≡ self.now) }
    {
        Ok(Past {
            kept: self.kept,
            refusal: copy_of_refusal(alloc, &self.refusal)?,
            window: copy_of_window(alloc, &self.window)?,
        })
    }

    /// Takes the answer to the next event, and the event.
    pub fn note(&mut self, step: Step, event: Event)
        requires { self.old.kept + 1 < 2 ^ 64 }
        ensures { (which : Which) (g : Graph) (k : ℕ) (h : List Event') → IsPast which g k h self.old → IsStep which g k (h ++ event ∷ []) step → IsPast which g k (h ++ event ∷ []) self.new }
    {
        match &self.refusal {
            Some(_) => return,
            None => {}
        }
        match step {
            Step::Kept => {
                let _oldest = self.window.push_back(event);
                self.kept += 1;
            }
            Step::Rejected => {
                let at = self.kept + 1;
                self.refusal = Some(Refusal {
                    verdict: Verdict::Rejected { at },
                    event,
                });
            }
            Step::Bound => {
                let at = self.kept + 1;
                self.refusal = Some(Refusal {
                    verdict: Verdict::Bound { at },
                    event,
                });
            }
        }
    }

    /// The verdict on the history.
    pub fn verdict(&self) -> Verdict
        ensures told { result ≡ verdict_of self.now }
        ensures exact { (which : Which) (g : Graph) (k : ℕ) (h : List Event') → IsPast which g k h self.now → IsVerdict which g k h result }
    {
        match &self.refusal {
            None => Verdict::Accepted { events: self.kept },
            Some(refusal) => refusal.verdict,
        }
    }

    /// The event at which the history was refused.
    pub fn refused(&self) -> Option<&Event>
        ensures { (which : Which) (g : Graph) (k : ℕ) (h : List Event') (verdict : Verdict') → IsPast which g k h self.now → IsVerdict which g k h verdict → option_copied result ≡ refused_event verdict h }
    {
        match &self.refusal {
            None => None,
            Some(refusal) => Some(&refusal.event),
        }
    }

    /// The last events that were kept, oldest first.
    pub fn last(&self, alloc: Global) -> Result<Vec<Event>, OutOfMemory>
        ensures { IfOk result (λ events. (which : Which) (g : Graph) (k : ℕ) (h : List Event') (verdict : Verdict') → IsPast which g k h self.now → IsVerdict which g k h verdict → events.items ≡ last_kept verdict h) }
    {
        events_of(alloc, &self.window)
    }
}

// An equal refusal, if there is one.
fn copy_of_refusal(alloc: Global, refusal: &Option<Refusal>) -> Result<Option<Refusal>, OutOfMemory>
    ensures { IfOk result (λ copied. copied ≡ refusal.now) }
{
    match refusal {
        None => Ok(None),
        Some(refusal) => Ok(Some(Refusal {
            verdict: refusal.verdict,
            event: refusal.event.copy(alloc)?,
        })),
    }
}

// Copies of the events of the window, oldest first.
fn events_of(alloc: Global, window: &HeapCircularBuffer<Event>) -> Result<Vec<Event>, OutOfMemory>
    ensures { IfOk result (λ events. events.items ≡ window.now.items) }
{
    let mut events = Vec::with_capacity(alloc, window.len())?;
    for event in window.iter() {
        events.push(event.copy(alloc)?)?;
    }
    Ok(events)
}

// An equal window.
fn copy_of_window(
    alloc: Global,
    window: &HeapCircularBuffer<Event>,
) -> Result<HeapCircularBuffer<Event>, OutOfMemory>
    requires { window.now.capacity ≡ 8 }
    ensures { IfOk result (λ copied. copied ≡ window.now) }
{
    let _within = window.len();
    let mut copied = HeapCircularBuffer::with_capacity(alloc, WINDOW)?;
    for event in window.iter() {
        let _oldest = copied.push_back(event.copy(alloc)?);
    }
    Ok(copied)
}
