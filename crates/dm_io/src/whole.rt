// Whole files and whole texts, over any store and sink.
ghost use Rattle.std.specs.Prelude.{◌≡◌, ◌<◌, ◌≤◌, ◌⊎◌, ◌+◌, ℕ, length, vec_len, take, IfOk, OnOk, OnErr, IsErrOf};
ghost use Rattle.dm_io.specs.declared.whole.ReadError.TheVariants.{OutOfMemory as NoMemory, Fault};
ghost use Rattle.dm_io.specs.Faults.{Rose};
ghost use Rattle.dm_io.specs.Front.{ReadsFront, IsAtEnd};
ghost use Rattle.dm_io.specs.Store.{ReadsWhole, IsMissing};
ghost use Rattle.dm_io.specs.Sink.{Takes};

use crate::zeros::zeros;
use crate::{ReadFail, Sink, Store, WriteFail};
use std::alloc::{AllocError, Global};

/// Why a file was not read.
#[derive(Clone, Copy, Debug, PartialEq, Eq)]
pub enum ReadError {
    /// Memory was refused.
    OutOfMemory,
    /// A read failed.
    Fault,
}

impl From<AllocError> for ReadError {
    ghost from_gives = { λ _ e. e ≡ NoMemory };

    fn from(_: AllocError) -> Self {
        ReadError::OutOfMemory
    }
}

impl From<dm_base::OutOfMemory> for ReadError {
    ghost from_gives = { λ _ e. e ≡ NoMemory };

    fn from(_: dm_base::OutOfMemory) -> Self {
        ReadError::OutOfMemory
    }
}

impl From<ReadFail> for ReadError {
    ghost from_gives = { λ _ e. e ≡ Fault };

    fn from(_: ReadFail) -> Self {
        ReadError::Fault
    }
}

// The most bytes that one read is asked for.
const PIECE: usize = 65_536;

// Reads one part more onto the text, and answers how many bytes it has.
fn read_on<S: Store>(
    store: &mut S,
    name: &str,
    text: &mut Vec<u8>,
    piece: &mut [u8],
) -> Result<usize, ReadError>
    requires { 0 < length piece.old }
    ensures same { S.files store.new ≡ S.files store.old }
    ensures front { OnOk result (ReadsFront (S.files store.old) name.now text.old.items
        → ReadsFront (S.files store.old) name.now text.new.items) }
    ensures longer { IfOk result (λ k. vec_len text.new ≡ vec_len text.old + k) }
    ensures within { IfOk result (λ k. k ≤ length piece.old) }
    ensures end { IfOk result (λ k. k ≡ 0
        → IsAtEnd (S.files store.old) name.now (vec_len text.new)) }
    ensures never_falls { S.faults store.old ≤ S.faults store.new }
    ensures cause { IsErrOf result ReadError.Fault → Rose (S.faults store.old) (S.faults store.new)
        ⊎ IsMissing (S.files store.old) name.now }
{
    let count = store.read(name, text.len() as u64, piece)?;
    text.extend_from_slice(&piece[..count])?;
    Ok(count)
}

/// Reads the file with this name from its start, in parts of at most 65,536 bytes, until a read
/// gives 0 bytes or `most` bytes are there. Where the files are told, the answer is the file, cut
/// after `most` bytes. It never has more than `most` bytes. A caller with a limit passes the limit
/// plus one, and sees by the length whether the file keeps the limit. Where `most` is 0, nothing
/// is read.
///
/// The files that are told stay, and the count of faults never falls, whatever is answered.
///
/// # Errors
///
/// - `Fault` only where the count of faults rose in this call or stands at 2^64 − 1 after it, or
///   where the files are told and none has this name.
/// - `OutOfMemory` where memory was refused. It claims nothing of the file.
pub fn read_whole<S: Store>(
    alloc: Global,
    store: &mut S,
    name: &str,
    most: usize,
) -> Result<Vec<u8>, ReadError>
    ensures same { S.files store.new ≡ S.files store.old }
    ensures whole { IfOk result (λ text. ReadsWhole (S.files store.old) name.now most text.items) }
    ensures short { IfOk result (λ text. length text.items ≤ most) }
    ensures never_falls { S.faults store.old ≤ S.faults store.new }
    ensures cause { IsErrOf result ReadError.Fault → Rose (S.faults store.old) (S.faults store.new)
        ⊎ IsMissing (S.files store.old) name.now }
{
    let mut text = Vec::new(alloc);
    let mut piece = zeros(alloc, PIECE)?;
    while text.len() < most {
        let room = PIECE.min(most - text.len());
        let count = read_on(store, name, &mut text, &mut piece[..room])?;
        if count == 0 {
            return Ok(text);
        }
    }
    Ok(text)
}

/// Writes the whole text, in as many writes as the sink needs. Where the bytes that the sink took
/// are told after the call, they were told before it, and the text was appended to them.
///
/// # Errors
///
/// `WriteFail` where a write failed. The count of faults rose in this call then, or stands at
/// 2^64 − 1 after it. Where the bytes are told, just the first bytes of the text were appended,
/// fewer than all.
pub fn write_whole<K: Sink>(sink: &mut K, text: &[u8]) -> Result<(), WriteFail>
    ensures ok { OnOk result (Takes (K.taken sink.old) (K.taken sink.new) text.now) }
    ensures err { OnErr result ((n : ℕ) × (n < length text.now)
        × Takes (K.taken sink.old) (K.taken sink.new) (take n text.now)) }
    ensures never_falls { K.faults sink.old ≤ K.faults sink.new }
    ensures cause { OnErr result (Rose (K.faults sink.old) (K.faults sink.new)) }
{
    let mut done = 0;
    while done < text.len() {
        let count = sink.write(&text[done..])?;
        done += count;
    }
    Ok(())
}
