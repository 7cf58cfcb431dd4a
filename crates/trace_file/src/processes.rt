ghost use Rattle.std.specs.Prelude.{◌≡◌, ℕ, List, [], ◌++◌, ◌-◌, length, take, OnOk, OnErr};
ghost use Rattle.trace_file.specs.Known.{made_known};
ghost use Rattle.trace_file.specs.Processes.{AreKnown, AreFound, with_process};

use crate::{Record, TracesVersion, child_of};
use dm_base::OutOfMemory;
use std::alloc::Global;
use std::collections::HashSet;
use std::marker::Model;

/// Processes by their numbers, in the order in which they became known. Seen as their list.
#[derive(Drop)]
pub struct Processes {
    list: Vec<u32>,
    // Those of the list, to be found by their numbers.
    found: HashSet<u32>,
}

impl Model for Processes {
    ghost use Rattle.std.specs.Prelude.{ℕ, List};
    ghost use Rattle.trace_file.specs.Processes.{AreFound};

    ghost Value = { List ℕ };

    ghost view = { λ p. p.list.items };

    ghost invariant = { λ p. AreFound p.list.items p.found.keys };
}

// Makes a process known where it isn't.
fn add_to_both(
    list: &mut Vec<u32>,
    found: &mut HashSet<u32>,
    process: u32,
) -> Result<(), OutOfMemory>
    requires { AreFound list.old.items found.old.keys }
    ensures added { OnOk result (list.new.items ≡ with_process list.old.items process) }
    ensures err { OnErr result (list.new.items ≡ list.old.items) }
    ensures found { AreFound list.new.items found.new.keys }
{
    if found.contains(&process) {
        return Ok(());
    }
    list.push(process)?;
    match found.insert(process) {
        Ok(_) => Ok(()),
        Err(refused) => {
            list.pop();
            Err(OutOfMemory::from(refused))
        }
    }
}

// Takes the process away that became known last.
fn take_last(list: &mut Vec<u32>, found: &mut HashSet<u32>)
    requires { AreFound list.old.items found.old.keys }
    ensures taken { list.new.items ≡ take (length list.old.items - 1) list.old.items }
    ensures found { AreFound list.new.items found.new.keys }
{
    if let Some(process) = list.pop() {
        found.remove(&process);
    }
}

// Keeps the first processes alone, so many.
fn cut(list: &mut Vec<u32>, found: &mut HashSet<u32>, len: usize)
    requires { AreFound list.old.items found.old.keys }
    ensures cut { list.new.items ≡ take len list.old.items }
    ensures found { AreFound list.new.items found.new.keys }
{
    while len < list.len() {
        take_last(list, found);
    }
}

impl Processes {
    /// No processes.
    pub fn new(alloc: Global) -> Processes
        ensures { result ≡ [] }
    {
        Processes {
            list: Vec::new(alloc),
            found: HashSet::new(alloc),
        }
    }

    /// How many there are.
    pub fn len(&self) -> usize
        ensures { result ≡ length self.now }
    {
        self.list.len()
    }

    /// Keeps the first processes alone, so many.
    pub fn truncate(&mut self, len: usize)
        ensures { self.new ≡ take len self.old }
    {
        cut(&mut self.list, &mut self.found, len);
    }

    // Makes a process known.
    fn add(&mut self, process: u32) -> Result<(), OutOfMemory>
        ensures added { OnOk result (self.new ≡ with_process self.old process) }
        ensures err { OnErr result (self.new ≡ self.old) }
    {
        add_to_both(&mut self.list, &mut self.found, process)
    }

    /// Makes the processes of a record known, after those of others. Where memory is refused some of
    /// them may be known.
    pub fn add_record(&mut self, version: TracesVersion, next: &Record) -> Result<(), OutOfMemory>
        ensures known { OnOk result ((numbers : List ℕ) → AreKnown self.old numbers → AreKnown self.new (numbers ++ made_known version next.now)) }
        ensures grown { (more : List ℕ) × (self.new ≡ self.old ++ more) }
    {
        self.add(next.pid)?;
        match version {
            TracesVersion::One => Ok(()),
            TracesVersion::Two => match child_of(&next.event) {
                Some(process) => self.add(process),
                None => Ok(()),
            },
        }
    }
}
