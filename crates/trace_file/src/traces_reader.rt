ghost use Rattle.std.specs.Prelude.{◌≡◌, ◌≢◌, ◌<◌, ◌≤◌, ℕ, List, [], ◌++◌, Some, IfOk, IfErr, OnOk, length};
ghost use Rattle.trace_file.specs.declared.error.TraceError.TheVariants.{OutOfMemory as NoMemory, TooLong as Long};
ghost use Rattle.trace_file.specs.declared.record.Record.{Record};
ghost use Rattle.trace_file.specs.Trace.{longest};
ghost use Rattle.trace_file.specs.declared.version.TracesVersion.{TracesVersion};
ghost use Rattle.trace_file.specs.Traces.{IsTracesRefusal, AreTracesShown};
ghost use Rattle.trace_file.specs.TracesReading.{StandForTraces, traces_version};
ghost use Rattle.trace_file.specs.Traces.{BeginsWith, AreTracesOf};

use crate::pieces::Pieces;
use crate::traces_place::TracesPlace;
use crate::{Record, TraceError, TracesVersion};
use dm_base::OutOfMemory;
use std::alloc::Global;
use std::marker::Model;

/// A reader of interleaved traces that come in pieces. It holds the unfinished line and the known
/// processes, and not the text.
#[derive(Drop)]
pub struct TracesReader {
    alloc: Global,
    pieces: Pieces<TracesPlace>,
}

impl Model for TracesReader {
    ghost use Rattle.trace_file.specs.declared.traces_place.TracesPlace.{TracesPlace};
    ghost use Rattle.trace_file.specs.Held.{Held};

    ghost Value = { Held TracesPlace };

    ghost view = { λ r. r.pieces };
}

impl TracesReader {
    /// A reader that was given nothing.
    pub fn new(alloc: Global) -> Result<TracesReader, OutOfMemory>
        ensures { IfOk result (λ reader. StandForTraces reader [] []) }
    {
        Ok(TracesReader {
            alloc,
            pieces: Pieces::new(alloc, TracesPlace::new(alloc)),
        })
    }

    /// Takes the next piece of the text, and gives the records of the lines that it completes. Want
    /// of memory changes nothing; after another refusal each call answers it again. A text that gets
    /// longer than 64 MiB is refused at this piece. A version that was told stays, and after another
    /// refusal than these two it is told where the first line stands whole. No other is ever told, and
    /// so none after a first line that is refused.
    pub fn feed(&mut self, piece: &[u8]) -> Result<Vec<Record>, TraceError>
        ensures stands { IfOk result (λ given. (text : List ℕ) (records : List Record) → StandForTraces self.old text records → StandForTraces self.new (text ++ piece.now) (records ++ given.items)) }
        ensures kept { (text : List ℕ) (records : List Record) (version : TracesVersion) → StandForTraces self.old text records → traces_version self.old ≡ Some version → traces_version self.new ≡ Some version }
        ensures told { IfErr result (λ error. error ≢ NoMemory → (text : List ℕ) (records : List Record) (version : TracesVersion) → StandForTraces self.old text records → length (text ++ piece.now) ≤ longest → BeginsWith (Some version) (text ++ piece.now) → traces_version self.new ≡ Some version) }
        ensures first { (text : List ℕ) (records : List Record) (version : TracesVersion) → StandForTraces self.old text records → traces_version self.new ≡ Some version → BeginsWith (Some version) (text ++ piece.now) }
        ensures memory { result ≡ Err NoMemory → self.new ≡ self.old }
        ensures refused { IfErr result (λ error. error ≢ NoMemory → self.new.refused ≡ Some error) }
        ensures again { (error : TraceError) → self.old.refused ≡ Some error → (result ≡ Err error) × (self.new ≡ self.old) }
        ensures long { (text : List ℕ) (records : List Record) → StandForTraces self.old text records → longest < length (text ++ piece.now) → result ≡ Err Long }
        ensures shown { IfErr result (λ error. (text : List ℕ) (records : List Record) → StandForTraces self.old text records → AreTracesShown error (text ++ piece.now)) }
    {
        self.pieces.feed(self.alloc, piece)
    }

    /// The version, once the first line was read whole without a refusal, also after a refusal of what
    /// follows it.
    pub fn version(&self) -> Option<TracesVersion>
        ensures version { result ≡ traces_version self.now }
        ensures begins { (text : List ℕ) (records : List Record) → StandForTraces self.now text records → BeginsWith result text }
    {
        self.pieces.place().version()
    }

    /// Tells that the text ends. After a refusal it answers that.
    pub fn finish(self) -> Result<(), TraceError>
        ensures within { OnOk result ((text : List ℕ) (records : List Record) → StandForTraces self text records → AreTracesOf (traces_version self) text records) }
        ensures refused { IfErr result (λ error. (text : List ℕ) (records : List Record) → StandForTraces self text records → IsTracesRefusal error text) }
        ensures again { (error : TraceError) → self.refused ≡ Some error → result ≡ Err error }
    {
        let alloc = self.alloc;
        let (place, tail) = self.pieces.finish()?;
        place.finish(alloc, &tail)
    }
}
