ghost use Rattle.std.specs.Prelude.{◌≡◌, ◌≤◌, ◌<◌, ◌^◌, ℕ, List, [], ◌++◌, length, Option as Option', Some, IfOk, IfErr, OnOk};
ghost use Rattle.flow_model.specs.Graph.{Graph};
ghost use Rattle.trace_file.specs.declared.record.Record.{Record as Record'};
ghost use Rattle.trace_file.specs.declared.version.TracesVersion.{TracesVersion as TracesVersion'};
ghost use Rattle.trace_file.specs.Known.{known_count};
ghost use Rattle.trace_file.specs.Trace.{longest, most};
ghost use Rattle.trace_file.specs.Traces.{most_processes, AreTracesWithin, IsTracesRefusal};
ghost use Rattle.tool_files.specs.Reading.{IsAt, StopsText};
ghost use Rattle.tool_models.specs.Following.{AreOpen, AreFew, HasBegun};

use crate::watches::Watches;
use dm_base::OutOfMemory;
use flow_model::Model;
use std::alloc::Global;
use tool_files::{Follower, refused_with};
use tool_frame::Stop;
use trace_file::{Record, TraceError, TracesReader, TracesVersion};

/// Watches that follow interleaved traces: the reader of their file, why the traces were refused, where
/// they were, the bound, and the watches, once the version of the file is known.
#[derive(Drop)]
pub struct TracesFollower<W: Watches> {
    reader: TracesReader,
    refused: Option<TraceError>,
    bound: u32,
    watches: Option<W>,
}

// Gives the watches the records in their order.
fn take_records<W: Watches>(watches: &mut W, records: &[Record]) -> Result<(), OutOfMemory>
    requires { (g : Graph) × (k : ℕ) × (version : TracesVersion') × (before : List Record') × W.watched watches.old g k version before × (length (before ++ records.now) ≤ most) × (known_count version (before ++ records.now) ≤ most_processes) }
    ensures { OnOk result ((g : Graph) (k : ℕ) (version : TracesVersion') (before : List Record') → W.watched watches.old g k version before → W.watched watches.new g k version (before ++ records.now)) }
{
    for one in records {
        watches.take(one.pid, &one.event)?;
    }
    Ok(())
}

// Opens the watches once the version of the file is known.
fn begin<W: Watches>(
    alloc: Global,
    watches: &mut Option<W>,
    model: &Model,
    bound: u32,
    version: Option<TracesVersion>,
) -> Result<(), OutOfMemory>
    requires { (1 ≤ bound) × (bound < 2 ^ 16) }
    ensures { OnOk result ((known : Option' TracesVersion') (records : List Record') → HasBegun (λ w v rs. W.watched w model.now bound v rs) watches.old known records → ((v : TracesVersion') → known ≡ Some v → version ≡ Some v)
        → HasBegun (λ w v rs. W.watched w model.now bound v rs) watches.new version records) }
{
    if watches.is_some() {
        return Ok(());
    }
    let Some(version) = version else {
        return Ok(());
    };
    *watches = Some(W::open(alloc, model, bound, version)?);
    Ok(())
}

// Gives the watches the records, of which there are none before the version is known.
fn go_on<W: Watches>(watches: &mut Option<W>, records: &[Record]) -> Result<(), OutOfMemory>
    requires { (g : Graph) × (k : ℕ) × (version : Option' TracesVersion') × (before : List Record') × HasBegun (λ w v rs. W.watched w g k v rs) watches.old version before × AreFew version (before ++ records.now) }
    ensures { OnOk result ((g : Graph) (k : ℕ) (version : Option' TracesVersion') (before : List Record') → HasBegun (λ w v rs. W.watched w g k v rs) watches.old version before → AreFew version (before ++ records.now)
        → HasBegun (λ w v rs. W.watched w g k v rs) watches.new version (before ++ records.now)) }
{
    match watches {
        Some(watches) => take_records(watches, records),
        None => Ok(()),
    }
}

// Feeds the reader the next bytes, and gives the watches the records that they complete. Answers why
// the traces are refused, where they are.
fn watch_piece<W: Watches>(
    alloc: Global,
    reader: &mut TracesReader,
    watches: &mut Option<W>,
    model: &Model,
    bound: u32,
    piece: &[u8],
) -> Result<Option<TraceError>, OutOfMemory>
    requires bound { (1 ≤ bound) × (bound < 2 ^ 16) }
    requires read { (text : List ℕ) × AreOpen reader.old (HasBegun (λ w v rs. W.watched w model.now bound v rs) watches.old) text }
    ensures { IfOk result (λ refused. (text : List ℕ) → AreOpen reader.old (HasBegun (λ w v rs. W.watched w model.now bound v rs) watches.old) text
        → IsAt IsTracesRefusal refused (λ t. AreOpen reader.new (HasBegun (λ w v rs. W.watched w model.now bound v rs) watches.new) t) (text ++ piece.now)) }
{
    match reader.feed(piece) {
        Ok(records) => {
            begin(alloc, watches, model, bound, reader.version())?;
            go_on(watches, &records)?;
            Ok(None)
        }
        Err(error) => {
            if error == TraceError::OutOfMemory {
                return Err(OutOfMemory);
            }
            Ok(Some(error))
        }
    }
}

impl<W: Watches> TracesFollower<W> {
    /// A follower that was given nothing.
    pub fn open(alloc: Global, bound: u32) -> Result<Self, OutOfMemory>
        ensures bound { IfOk result (λ f. f.bound ≡ bound) }
        ensures read { IfOk result (λ f. (g : Graph) → IsAt IsTracesRefusal f.refused (λ t. AreOpen f.reader (HasBegun (λ w v rs. W.watched w g f.bound v rs) f.watches) t) []) }
    {
        Ok(TracesFollower {
            reader: TracesReader::new(alloc)?,
            refused: None,
            bound,
            watches: None,
        })
    }

    /// Ends the reading of the whole file: gives the watches, or says why the traces are refused.
    pub fn conclude(self, alloc: Global) -> Result<W, Stop>
        requires { (g : Graph) × (text : List ℕ) × IsAt IsTracesRefusal self.refused (λ t. AreOpen self.reader (HasBegun (λ w v rs. W.watched w g self.bound v rs) self.watches) t) text }
        ensures watched { IfOk result (λ w. (g : Graph) (text : List ℕ) → IsAt IsTracesRefusal self.refused (λ t. AreOpen self.reader (HasBegun (λ w v rs. W.watched w g self.bound v rs) self.watches) t) text
            → (version : TracesVersion') × (records : List Record') × AreTracesWithin text version records × W.watched w g self.bound version records) }
        ensures stop { IfErr result (λ stop. (g : Graph) (text : List ℕ) → IsAt IsTracesRefusal self.refused (λ t. AreOpen self.reader (HasBegun (λ w v rs. W.watched w g self.bound v rs) self.watches) t) text
            → length text ≤ longest → StopsText IsTracesRefusal stop text) }
    {
        let TracesFollower {
            reader,
            refused,
            bound: _,
            watches,
        } = self;
        match refused {
            Some(error) => return Err(refused_with(alloc, error)),
            None => {}
        }
        match reader.finish() {
            Ok(()) => match watches {
                Some(watches) => Ok(watches),
                None => unreachable!(),
            },
            Err(error) => Err(refused_with(alloc, error)),
        }
    }
}

impl<W: Watches> Follower for TracesFollower<W> {
    ghost followed = { λ f g k text. (f.bound ≡ k) × (1 ≤ f.bound) × (f.bound < 2 ^ 16) × IsAt IsTracesRefusal f.refused (λ t. AreOpen f.reader (HasBegun (λ w v rs. W.watched w g f.bound v rs) f.watches) t) text };

    fn take(&mut self, alloc: Global, model: &Model, piece: &[u8]) -> Result<(), OutOfMemory> {
        match &self.refused {
            Some(_) => return Ok(()),
            None => {}
        }
        let refused = watch_piece(
            alloc,
            &mut self.reader,
            &mut self.watches,
            model,
            self.bound,
            piece,
        )?;
        self.refused = refused;
        Ok(())
    }
}
