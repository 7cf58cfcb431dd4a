ghost use Rattle.std.specs.Prelude.{◌≡◌, ◌↔◌, ◌+◌, ◌<◌, ◌≤◌, ◌^◌, true, ℕ, List, [], ◌∷◌, ◌++◌, All, Some, length, map, is_some, IsTrue, IfOk, IfSome, OnOk, OnErr, if◌then◌else◌, None};
ghost use Rattle.std.specs.Option.{option_copied};
ghost use Rattle.dm_base.specs.declared.verdict.Verdict.{Verdict as Verdict'};
ghost use Rattle.flow_model.specs.Graph.{Graph};
ghost use Rattle.flow_model.specs.Verdict.{IsStep, IsVerdict};
ghost use Rattle.trace_file.specs.declared.record.Record.{Record};
ghost use Rattle.trace_file.specs.declared.version.TracesVersion.{TracesVersion as TracesVersion'};
ghost use Rattle.trace_file.specs.Known.{known_count};
ghost use Rattle.trace_file.specs.Traces.{most_processes};

use crate::process::{Process, Setting};
use crate::sweeping::mark_accepted;
use crate::table::{follow, newborn, verdicts_of};
use dm_base::{Event, OutOfMemory, Step, Verdict};
use flow_model::{Model, Monitor};
use indexmap::{IndexMap, IndexSet};
use std::alloc::Global;
use trace_file::TracesVersion;

/// The greatest number of known processes.
const MOST: usize = 4_096;

/// The pool is looked at after so many steps.
const LOOKED_AFTER: u64 = 1_024;

/// Judges the processes of one interleaved log by one model, all with one pool. It stands for the
/// list of the records that it was given, and all that it answers is exact for that list.
///
/// A process is known from its first record on and, in version 2, from the fork that made it on.
#[derive(Drop)]
pub struct Watch<M: Monitor> {
    setting: Setting,
    pool: M::Pool,
    table: IndexMap<u32, Process<M>>,
    firsts: IndexSet<u32>,
    steps: u64,
    left: usize,
}

// One where it is so, and else nothing.
fn one_if(yes: bool) -> usize
    ensures { result ≡ (if yes then 1 else 0) }
{
    if yes { 1 } else { 0 }
}

impl<M: Monitor> Watch<M> {
    ghost use Rattle.watch.specs.Own.{own, firsts, has_record, is_known, record_of};
    ghost use Rattle.watch.specs.Pasts.{last_kept, refused_event};
    ghost use Rattle.watch.specs.Watching.{StandsFor, HoldsNeeded, pool_of, monitor_of};

    /// A watch that stands for no records. The bound is the greatest number of calls that may be open
    /// at once in the Dyck model, 1 to 65,535.
    pub fn open(
        alloc: Global,
        model: Model,
        bound: u32,
        version: TracesVersion,
    ) -> Result<Watch<M>, OutOfMemory>
        requires { (1 ≤ bound) × (bound < 2 ^ 16) }
        ensures { IfOk result (λ w. StandsFor M.Monitor model bound version w []) }
    {
        let pool = M::pool(alloc, &model)?;
        Ok(Watch {
            setting: Setting {
                alloc,
                model,
                bound,
                version,
            },
            pool,
            table: IndexMap::new(alloc),
            firsts: IndexSet::new(alloc),
            steps: 0,
            left: 0,
        })
    }

    /// Whether at most 4,096 processes are known once this record is taken.
    pub fn room(&self, pid: u32, event: &Event) -> bool
        ensures { (g : Graph) (k : ℕ) (version : TracesVersion') (records : List Record) → StandsFor M.Monitor g k version self.now records → IsTrue result ↔ (known_count version (records ++ record_of pid event.now ∷ []) ≤ most_processes) }
    {
        let own = one_if(!self.table.contains_key(&pid));
        let child = one_if(newborn(&self.setting, &self.table, pid, event).is_some());
        self.table.len() + own + child <= MOST
    }

    /// Takes the next record: the event of this process, which with it makes at most 4,096 processes
    /// known. Answers as the verdict on the process's own history has it. Where memory is refused the
    /// watch stands for the records that it stood for, and its pool may hold more than anybody needs.
    pub fn step(&mut self, pid: u32, event: &Event) -> Result<Step, OutOfMemory>
        requires { (g : Graph) × (k : ℕ) × (version : TracesVersion') × (records : List Record) × StandsFor M.Monitor g k version self.old records × (known_count version (records ++ record_of pid event.now ∷ []) ≤ most_processes) × (length records + 1 < 2 ^ 64) }
        ensures stands { OnOk result ((g : Graph) (k : ℕ) (version : TracesVersion') (records : List Record) → StandsFor M.Monitor g k version self.old records → StandsFor M.Monitor g k version self.new (records ++ record_of pid event.now ∷ [])) }
        ensures exact { IfOk result (λ step. (g : Graph) (k : ℕ) (version : TracesVersion') (records : List Record) → StandsFor M.Monitor g k version self.old records → IsStep M.WHICH g k (own version pid (records ++ record_of pid event.now ∷ [])) step) }
        ensures err { OnErr result ((g : Graph) (k : ℕ) (version : TracesVersion') (records : List Record) → StandsFor M.Monitor g k version self.old records → StandsFor M.Monitor g k version self.new records) }
    {
        self.table.reserve(2)?;
        self.firsts.reserve(1)?;
        let step = follow(&self.setting, &mut self.table, &mut self.pool, pid, event)?;
        let _first = self.firsts.insert(pid).is_ok();
        self.steps += 1;
        if self.steps % LOOKED_AFTER == 0 && self.left <= M::held(&self.pool) / 2 {
            let _swept = self.sweep().is_ok();
        }
        Ok(step)
    }

    /// How many steps were taken.
    pub fn steps(&self) -> u64
        ensures { (g : Graph) (k : ℕ) (version : TracesVersion') (records : List Record) → StandsFor M.Monitor g k version self.now records → result ≡ length records }
    {
        self.steps
    }

    /// Frees what no known process whose verdict is Accepted needs. Where memory is refused the pool
    /// stays unswept.
    pub fn sweep(&mut self) -> Result<(), OutOfMemory>
        requires { (g : Graph) × (k : ℕ) × (version : TracesVersion') × (records : List Record) × StandsFor M.Monitor g k version self.old records }
        ensures stands { (g : Graph) (k : ℕ) (version : TracesVersion') (records : List Record) → StandsFor M.Monitor g k version self.old records → StandsFor M.Monitor g k version self.new records }
        ensures exact { OnOk result ((g : Graph) (k : ℕ) (version : TracesVersion') (records : List Record) → StandsFor M.Monitor g k version self.old records → HoldsNeeded M.Monitor g k version self.new records) }
    {
        mark_accepted(&self.table, &mut self.pool)?;
        M::sweep(&mut self.pool);
        self.left = M::held(&self.pool);
        Ok(())
    }

    /// The pool. The monitor of each known process stands in it for the process's own history.
    pub fn pool(&self) -> &M::Pool
        ensures pool { result.now ≡ pool_of self.now }
        ensures known { (g : Graph) (k : ℕ) (version : TracesVersion') (records : List Record) (p : ℕ) → StandsFor M.Monitor g k version self.now records → is_some (monitor_of self.now p) ≡ is_known version records p }
        ensures forks { (g : Graph) (k : ℕ) (version : TracesVersion') (records : List Record) (p : ℕ) (m : M) → StandsFor M.Monitor g k version self.now records → monitor_of self.now p ≡ Some m → M.stands m result.now g k (own version p records) }
    {
        &self.pool
    }

    /// The verdict on the process's own history, or None for a process without a record.
    pub fn verdict(&self, pid: u32) -> Option<Verdict>
        ensures some { (g : Graph) (k : ℕ) (version : TracesVersion') (records : List Record) → StandsFor M.Monitor g k version self.now records → is_some result ≡ has_record records pid }
        ensures exact { IfSome result (λ verdict. (g : Graph) (k : ℕ) (version : TracesVersion') (records : List Record) → StandsFor M.Monitor g k version self.now records → IsVerdict M.WHICH g k (own version pid records) verdict) }
    {
        if !self.firsts.contains(&pid) {
            return None;
        }
        let process = self.table.get(&pid)?;
        Some(process.past.verdict())
    }

    /// The processes that have a record, in the order of their first records, with the verdicts on
    /// their own histories.
    pub fn verdicts(&self) -> Result<Vec<(u32, Verdict)>, OutOfMemory>
        ensures order { IfOk result (λ list. (g : Graph) (k : ℕ) (version : TracesVersion') (records : List Record) → StandsFor M.Monitor g k version self.now records → map (λ v. v.0) list.items ≡ firsts records) }
        ensures exact { IfOk result (λ list. (g : Graph) (k : ℕ) (version : TracesVersion') (records : List Record) → StandsFor M.Monitor g k version self.now records → All (λ v. IsVerdict M.WHICH g k (own version v.0 records) v.1) list.items) }
    {
        verdicts_of(self.setting.alloc, self.firsts.as_slice(), &self.table)
    }

    /// The event at which the process's own history was refused, or None for a process without a
    /// record or with the verdict Accepted.
    pub fn refused(&self, pid: u32) -> Option<&Event>
        ensures { (g : Graph) (k : ℕ) (version : TracesVersion') (records : List Record) (verdict : Verdict') → StandsFor M.Monitor g k version self.now records → IsVerdict M.WHICH g k (own version pid records) verdict → option_copied result ≡ (if has_record records pid then refused_event verdict (own version pid records) else None) }
    {
        if !self.firsts.contains(&pid) {
            return None;
        }
        let process = self.table.get(&pid)?;
        process.past.refused()
    }

    /// The last eight events of the process's own history that were kept, or all where there are
    /// fewer, oldest first. There are none for a process that isn't known.
    pub fn window(&self, pid: u32) -> Result<Vec<Event>, OutOfMemory>
        ensures { IfOk result (λ events. (g : Graph) (k : ℕ) (version : TracesVersion') (records : List Record) (verdict : Verdict') → StandsFor M.Monitor g k version self.now records → IsVerdict M.WHICH g k (own version pid records) verdict → events.items ≡ last_kept verdict (own version pid records)) }
    {
        match self.table.get(&pid) {
            Some(process) => process.past.last(self.setting.alloc),
            None => Ok(Vec::new(self.setting.alloc)),
        }
    }
}
