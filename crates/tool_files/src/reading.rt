ghost use Rattle.std.specs.Prelude.{◌≡◌, ◌≤◌, ◌<◌, ◌+◌, ℕ, List, [], ◌++◌, length, take, vec_len, IfOk, IfErr, OnOk};
ghost use Rattle.dm_io.specs.Store.{ReadsPart};
ghost use Rattle.trace_file.specs.Trace.{longest};
ghost use Rattle.tool_files.specs.Reading.{IsReadWhole, IsStopOf, StopsReading};

use crate::follower::Follower;
use crate::refusals::trace_line;
use dm_base::OutOfMemory;
use dm_io::Store;
use flow_model::Model;
use std::alloc::Global;
use tool_frame::Stop;
use trace_file::TraceError;

// The most bytes that one read is asked for.
const PIECE: usize = 4_096;

// One byte more than a trace, or interleaved traces, may have.
const MOST: usize = 67_108_865;

// Room for one piece.
fn room(alloc: Global) -> Result<Vec<u8>, OutOfMemory>
    ensures { IfOk result (λ room. vec_len room ≡ 4096) }
{
    Ok(vec![in alloc; 0u8; PIECE]?)
}

// Reads the piece of the file that follows so many bytes, and has it followed. Answers how many bytes
// it has.
fn read_piece<S: Store, F: Follower>(
    alloc: Global,
    store: &mut S,
    name: &str,
    given: usize,
    follower: &mut F,
    model: &Model,
    room: &mut [u8],
) -> Result<usize, Stop>
    requires followed { (k : ℕ) × (text : List ℕ) × F.followed follower.old model.now k text }
    requires room { 0 < length room.old }
    ensures same { S.files store.new ≡ S.files store.old }
    ensures never_falls { S.faults store.old ≤ S.faults store.new }
    ensures within { IfOk result (λ count. count ≤ length room.old) }
    ensures fits { IfOk result (λ count. count ≤ length room.new) }
    ensures part { IfOk result (λ count. ReadsPart (S.files store.old) name.now given count room.new) }
    ensures followed { IfOk result (λ count. (k : ℕ) (text : List ℕ) → F.followed follower.old model.now k text → length (text ++ take count room.new) ≤ longest → F.followed follower.new model.now k (text ++ take count room.new)) }
    ensures stop { IfErr result (λ stop. StopsReading stop (S.files store.old) name.now (S.faults store.old) (S.faults store.new)) }
{
    let count = store.read(name, given as u64, room)?;
    follower.take(alloc, model, &room[..count])?;
    Ok(count)
}

/// Reads the file to its end, a piece at a time, and has it followed; or to one byte past the longest
/// trace, which is refused.
pub fn read_to_end<S: Store, F: Follower>(
    alloc: Global,
    store: &mut S,
    name: &str,
    follower: &mut F,
    model: &Model,
) -> Result<(), Stop>
    requires { (k : ℕ) × F.followed follower.old model.now k [] }
    ensures same { S.files store.new ≡ S.files store.old }
    ensures never_falls { S.faults store.old ≤ S.faults store.new }
    ensures whole { OnOk result ((k : ℕ) → F.followed follower.old model.now k [] → IsReadWhole (S.files store.old) name.now (λ text. F.followed follower.new model.now k text)) }
    ensures stop { IfErr result (λ stop. StopsReading stop (S.files store.old) name.now (S.faults store.old) (S.faults store.new)) }
{
    let mut room = room(alloc)?;
    let mut given = 0;
    while given < MOST {
        let wanted = PIECE.min(MOST - given);
        let count = read_piece(
            alloc,
            store,
            name,
            given,
            follower,
            model,
            &mut room[..wanted],
        )?;
        if count == 0 {
            return Ok(());
        }
        given += count;
    }
    Err(Stop::Record(trace_line(alloc, TraceError::TooLong)?))
}

/// The stop of a trace, or of interleaved traces, that were refused.
pub fn refused_with(alloc: Global, error: TraceError) -> Stop
    ensures { IsStopOf result error }
{
    if error == TraceError::OutOfMemory {
        return Stop::OutOfMemory;
    }
    match trace_line(alloc, error) {
        Ok(line) => Stop::Record(line),
        Err(_) => Stop::OutOfMemory,
    }
}
