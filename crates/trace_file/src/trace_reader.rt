ghost use Rattle.std.specs.Prelude.{◌≡◌, ◌≢◌, ◌<◌, ℕ, List, [], ◌++◌, Some, IfOk, IfErr, length};
ghost use Rattle.dm_base.specs.declared.event.Event.{Event};
ghost use Rattle.trace_file.specs.declared.error.TraceError.TheVariants.{OutOfMemory as NoMemory, TooLong as Long};
ghost use Rattle.trace_file.specs.Trace.{longest, IsTraceWithin, IsTraceRefusal, IsTraceShown};
ghost use Rattle.trace_file.specs.TraceReading.{StandsForTrace};

use crate::TraceError;
use crate::pieces::Pieces;
use crate::trace_place::TracePlace;
use dm_base::{Event, OutOfMemory, TraceEnd};
use std::alloc::Global;
use std::marker::Model;

/// A reader of one process's trace that comes in pieces. It holds the unfinished line, and not the
/// text.
#[derive(Drop)]
pub struct TraceReader {
    alloc: Global,
    pieces: Pieces<TracePlace>,
}

impl Model for TraceReader {
    ghost use Rattle.trace_file.specs.declared.trace_place.TracePlace.{TracePlace};
    ghost use Rattle.trace_file.specs.Held.{Held};

    ghost Value = { Held TracePlace };

    ghost view = { λ r. r.pieces };
}

impl TraceReader {
    /// A reader that was given nothing.
    pub fn new(alloc: Global) -> Result<TraceReader, OutOfMemory>
        ensures { IfOk result (λ reader. StandsForTrace reader [] []) }
    {
        Ok(TraceReader {
            alloc,
            pieces: Pieces::new(alloc, TracePlace::Start),
        })
    }

    /// Takes the next piece of the text, and gives the events of the lines that it completes. Want of
    /// memory changes nothing; after another refusal each call answers it again. A text that gets
    /// longer than 64 MiB is refused at this piece.
    pub fn feed(&mut self, piece: &[u8]) -> Result<Vec<Event>, TraceError>
        ensures stands { IfOk result (λ given. (text : List ℕ) (events : List Event) → StandsForTrace self.old text events → StandsForTrace self.new (text ++ piece.now) (events ++ given.items)) }
        ensures memory { result ≡ Err NoMemory → self.new ≡ self.old }
        ensures refused { IfErr result (λ error. error ≢ NoMemory → self.new.refused ≡ Some error) }
        ensures again { (error : TraceError) → self.old.refused ≡ Some error → (result ≡ Err error) × (self.new ≡ self.old) }
        ensures long { (text : List ℕ) (events : List Event) → StandsForTrace self.old text events → longest < length (text ++ piece.now) → result ≡ Err Long }
        ensures shown { IfErr result (λ error. (text : List ℕ) (events : List Event) → StandsForTrace self.old text events → IsTraceShown error (text ++ piece.now)) }
    {
        self.pieces.feed(self.alloc, piece)
    }

    /// How the trace ends. After a refusal it answers that.
    pub fn finish(self) -> Result<TraceEnd, TraceError>
        ensures within { IfOk result (λ end. (text : List ℕ) (events : List Event) → StandsForTrace self text events → IsTraceWithin text events end) }
        ensures refused { IfErr result (λ error. (text : List ℕ) (events : List Event) → StandsForTrace self text events → IsTraceRefusal error text) }
        ensures again { (error : TraceError) → self.refused ≡ Some error → result ≡ Err error }
    {
        let alloc = self.alloc;
        let (place, tail) = self.pieces.finish()?;
        place.finish(alloc, &tail)
    }
}
