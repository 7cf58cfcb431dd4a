ghost use Rattle.std.specs.Prelude.{◌≡◌, ◌<◌, ◌≤◌, ◌⊎◌, ◌-◌, length, IsTrue, IsErr, IfSome, IfNone, IfOk, OnErr, Ok, Some, None, min};
ghost use Rattle.std.specs.FinMap.{get};
ghost use Rattle.dm_io.specs.Faults.{Rose};
ghost use Rattle.dm_io.specs.Memory.{files_of, after_read};
ghost use Rattle.dm_io.specs.Plan.{first_plan, is_failing, share};
ghost use Rattle.dm_io.specs.Store.{IsPart, file_at, bytes_left};

use crate::plan::Plan;
use crate::{ReadFail, Store};
use std::marker::Model;

/// Files in memory, whose reads can be made to fail and to give few bytes.
/// Contracts see its files and the plan of its calls.
#[derive(Drop)]
pub struct MemoryStore {
    entries: Vec<(String, Vec<u8>)>,
    plan: Plan,
}

impl Model for MemoryStore {
    ghost use Rattle.dm_io.specs.Memory.{StoreState, store_code, files_of};

    ghost Value = { StoreState };

    ghost coded = { store_code };

    ghost view = { λ s. record { files = files_of s.entries.items; plan = s.plan } };
}

impl MemoryStore {
    /// A store of these files, each a name and its bytes. Of two with one name the first counts.
    ///
    /// Reads are numbered from 0, and those whose numbers are in `failing` fail, each of which is
    /// a fault. The number of a read and the count of faults stop at 2^64 − 1.
    /// A read gives at most `most` bytes, or at most 1 where `most` is 0.
    pub fn new(files: Vec<(String, Vec<u8>)>, failing: Vec<u64>, most: usize) -> Self
        ensures files { result.files ≡ files_of files.items }
        ensures plan { result.plan ≡ first_plan failing.items most }
    {
        MemoryStore {
            entries: files,
            plan: Plan::new(failing, most),
        }
    }

    /// A store of these files whose reads never fail. Of two with one name the first counts, and a
    /// name that no file has is read as an empty file.
    pub fn never(files: Vec<(String, Vec<u8>)>) -> HonestStore
        ensures { result ≡ files_of files.items }
    {
        HonestStore { entries: files }
    }
}

// The file with this name, the first where there are several.
fn find<'a>(entries: &'a [(String, Vec<u8>)], name: &str) -> Option<&'a [u8]>
    ensures some { IfSome result (λ file. get (files_of entries.now) name.now ≡ Some file.now) }
    ensures none { IfNone result (get (files_of entries.now) name.now ≡ None) }
{
    for (key, file) in entries {
        if name == key.as_str() {
            return Some(file);
        }
    }
    None
}

// Copies at most so many bytes of the file, from a place on, and answers how many.
fn copy_part(file: &[u8], from: u64, most: usize, into: &mut [u8]) -> usize
    requires room { 0 < length into.old }
    requires some { 0 < most }
    ensures count { result ≡ min most (min (length into.old) (length file.now - from)) }
    ensures part { IsPart file.now from result into.new }
{
    let from = from as usize;
    if from >= file.len() {
        return 0;
    }
    let rest = &file[from..];
    let count = most.min(into.len()).min(rest.len());
    into[..count].copy_from_slice(&rest[..count]);
    count
}

impl Store for MemoryStore {
    ghost files = { λ s. Some s.files };

    ghost faults = { λ s. s.plan.faults };

    /// Reads as the trait says.
    ///
    /// # Errors
    ///
    /// `ReadFail` where the number of this call is one of those that fail, which raises the count
    /// of faults, and where no file has this name, which does not raise it.
    fn read(&mut self, name: &str, from: u64, into: &mut [u8]) -> Result<usize, ReadFail>
        requires { 0 < length into.old }
        ensures same { self.new.files ≡ self.old.files }
        ensures within { IfOk result (λ k. k ≤ length into.old) }
        ensures part { IfOk result (λ k. IsPart (file_at self.old.files name.now) from k into.new) }
        ensures never_falls { self.old.plan.faults ≤ self.new.plan.faults }
        ensures cause { OnErr result (Rose self.old.plan.faults self.new.plan.faults
            ⊎ get self.old.files name.now ≡ None) }

        // What this store does beyond that.
        ensures planned { IsTrue (is_failing self.old.plan) → IsErr result }
        ensures absent { get self.old.files name.now ≡ None → IsErr result }
        ensures fails { OnErr result (IsTrue (is_failing self.old.plan)
            ⊎ get self.old.files name.now ≡ None) }
        ensures count { IfOk result (λ k. k ≡ share self.old.plan
            (min (length into.old) (bytes_left self.old.files name.now from))) }
        ensures state { self.new ≡ after_read self.old }
    {
        if self.plan.is_failing() {
            self.plan.count_fault();
            return Err(ReadFail);
        }
        self.plan.count_call();
        match find(&self.entries, name) {
            Some(file) => Ok(copy_part(file, from, self.plan.share(usize::MAX), into)),
            None => Err(ReadFail),
        }
    }
}

/// Files in memory, whose reads never fail. Contracts see its files.
/// A name that no file has is read as an empty file.
#[derive(Drop)]
pub struct HonestStore {
    entries: Vec<(String, Vec<u8>)>,
}

impl Model for HonestStore {
    ghost use Rattle.dm_io.specs.Store.{Files};
    ghost use Rattle.dm_io.specs.Memory.{files_code, files_of};

    ghost Value = { Files };

    ghost coded = { files_code };

    ghost view = { λ s. files_of s.entries.items };
}

impl Store for HonestStore {
    ghost files = { λ s. Some s };

    ghost faults = { λ _. 0 };

    /// Reads as many bytes as `into` takes or the file has from there on. It never fails.
    fn read(&mut self, name: &str, from: u64, into: &mut [u8]) -> Result<usize, ReadFail>
        requires { 0 < length into.old }
        ensures same { self.new ≡ self.old }
        ensures part { IfOk result (λ k. IsPart (file_at self.old name.now) from k into.new) }
        ensures count { result ≡ Ok (min (length into.old) (bytes_left self.old name.now from)) }
    {
        match find(&self.entries, name) {
            Some(file) => Ok(copy_part(file, from, usize::MAX, into)),
            None => Ok(0),
        }
    }
}
