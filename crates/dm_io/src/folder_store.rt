// The files of the system, and its standard input. Nothing is told of what they hold.
ghost use Rattle.std.specs.Prelude.{◌≡◌, ◌<◌, ◌≤◌, ◌⊎◌, length, None, IfOk, OnOk, OnErr};
ghost use Rattle.dm_io.specs.Faults.{Rose, raised};
ghost use Rattle.dm_io.specs.Store.{ReadsPart, IsMissing};

use crate::{ReadFail, Store};
use std::alloc::Global;
use std::fs::{self, Files};
use std::io::{self, Read, Seek, SeekFrom};
use std::marker::Model;

// The name of the standard input.
const INPUT: &str = "-";

// A file that is open, and the number of the byte that is read next. There is no name where memory for it was refused.
#[derive(Drop)]
struct OpenFile<F: Read + Seek + Drop> {
    name: Option<String>,
    file: F,
    at: u64,
}

impl<F: Read + Seek + Drop> OpenFile<F> {
    // Whether the next byte is this one of the file with this name.
    fn is_at(&self, name: &str, from: u64) -> bool {
        match &self.name {
            Some(own) => own.as_str() == name && self.at == from,
            None => false,
        }
    }
}

/// The files of the system by their paths, and the standard input by the name `-`. The file that was read last stays open, so a
/// file that is read in order is read whole, also where it gets another name meanwhile. The standard input is read once, in
/// order: a read of it from another place than the next one is a fault. Contracts see the count of faults.
#[derive(Drop)]
pub struct FolderStore<'a, R: Files, I: Read + Drop> {
    files: &'a R,
    alloc: Global,
    input: I,
    taken: u64,
    current: Option<OpenFile<R::File>>,
    failed: u64,
}

impl<'a, R: Files, I: Read + Drop> Model for FolderStore<'a, R, I> {
    ghost use Rattle.std.specs.Prelude.{ℕ};

    ghost Value = { ℕ };

    ghost view = { λ s. s.failed };
}

impl<'a, R: Files, I: Read + Drop> FolderStore<'a, R, I> {
    /// A store of the files that `rt` opens, with `input` as the standard input. A relative name is taken from the current folder.
    pub fn new(rt: &'a R, alloc: Global, input: I) -> Self
        ensures { result ≡ 0 }
    {
        FolderStore {
            files: rt,
            alloc,
            input,
            taken: 0,
            current: None,
            failed: 0,
        }
    }
}

// Opens a file where its byte with this number is read next.
fn opened<R: Files>(
    files: &R,
    alloc: Global,
    name: &str,
    from: u64,
) -> io::Result<OpenFile<R::File>> {
    let mut file = fs::open(files, name)?;
    if from > 0 {
        file.seek(SeekFrom::Start(from))?;
    }
    let name = name.to_string(alloc).ok();
    Ok(OpenFile {
        name,
        file,
        at: from,
    })
}

// The file that was open where it stands at this place, or else the one with this name.
fn open_at<R: Files>(
    files: &R,
    alloc: Global,
    current: Option<OpenFile<R::File>>,
    name: &str,
    from: u64,
) -> io::Result<OpenFile<R::File>> {
    if let Some(open) = current {
        if open.is_at(name, from) {
            return Ok(open);
        }
    }
    opened(files, alloc, name, from)
}

// Reads once from a file, which stays open.
fn read_file<R: Files>(
    files: &R,
    alloc: Global,
    current: &mut Option<OpenFile<R::File>>,
    name: &str,
    from: u64,
    into: &mut [u8],
) -> io::Result<usize>
    ensures { IfOk result (λ k. k ≤ length into.old) }
{
    let mut open = open_at(files, alloc, current.take(), name, from)?;
    let count = open.file.read(into)?;
    open.at = open.at.saturating_add(count as u64);
    *current = Some(open);
    Ok(count)
}

// Reads once from the standard input, of which so many bytes were read.
fn read_input<I: Read>(
    input: &mut I,
    taken: &mut u64,
    from: u64,
    into: &mut [u8],
) -> io::Result<usize>
    ensures { IfOk result (λ k. k ≤ length into.old) }
{
    if from != *taken {
        return Err(io::Error::from(io::ErrorKind::InvalidInput));
    }
    let count = input.read(into)?;
    *taken = taken.saturating_add(count as u64);
    Ok(count)
}

impl<R: Files, I: Read + Drop> Store for FolderStore<'_, R, I> {
    ghost files = { λ _. None };

    ghost faults = { λ s. s };

    /// Reads once, from the file that is open where the place is its next byte, and else from the file with this name, which is
    /// opened. The content is whatever the system gives.
    ///
    /// # Errors
    ///
    /// `ReadFail` where the file can't be opened or read, and where the standard input is read from another place than its next
    /// byte. Each is a fault, which raises the count by one, up to 2^64 − 1.
    fn read(&mut self, name: &str, from: u64, into: &mut [u8]) -> Result<usize, ReadFail>
        requires { 0 < length into.old }
        ensures within { IfOk result (λ k. k ≤ length into.old) }
        ensures part { IfOk result (λ k. ReadsPart None name.now from k into.new) }
        ensures never_falls { self.old ≤ self.new }
        ensures cause { OnErr result (Rose self.old self.new ⊎ IsMissing None name.now) }

        // What this store does beyond that.
        ensures ok { OnOk result (self.new ≡ self.old) }
        ensures err { OnErr result (self.new ≡ raised self.old) }
    {
        let read = if name == INPUT {
            read_input(&mut self.input, &mut self.taken, from, into)
        } else {
            read_file(self.files, self.alloc, &mut self.current, name, from, into)
        };
        match read {
            Ok(count) => Ok(count),
            Err(_) => {
                self.failed = self.failed.saturating_add(1);
                Err(ReadFail)
            }
        }
    }
}
