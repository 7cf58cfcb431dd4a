ghost use Rattle.std.specs.Prelude.{◌≡◌, ◌+◌, ◌<◌, ◌≤◌, ◌^◌, false, ℕ, List, [], ◌∷◌, ◌++◌, All, length, nat_eq, IfOk, OnOk, OnErr, IsOk};
ghost use Rattle.dm_base.specs.declared.event.Event.{Event as Event'};
ghost use Rattle.flow_model.specs.Graph.{Graph};
ghost use Rattle.flow_model.specs.Verdict.{IsStep};
ghost use Rattle.indexmap.specs.IndexMap.{get, keys, values, spare, insert_entry, IsUnique};
ghost use Rattle.indexmap.specs.IndexSet.{insert_key};
ghost use Rattle.trace_file.specs.declared.record.Record.{Record};
ghost use Rattle.watch.specs.Own.{own, record_of};
ghost use Rattle.watch.specs.Keeping.{KeepsPool, IsNewborn, verdicts_told};
ghost use Rattle.watch.specs.Standing.{IsBound, IsAt, HasHistory, AreWatched};

use crate::process::{Process, Setting};
use dm_base::{Event, OutOfMemory, Step, Verdict};
use flow_model::Monitor;
use indexmap::IndexMap;
use std::alloc::Global;
use trace_file::{TracesVersion, child_of};

/// The child that this event of a process makes, where it isn't known.
pub fn newborn<M: Monitor>(
    setting: &Setting,
    table: &IndexMap<u32, Process<M>>,
    pid: u32,
    event: &Event,
) -> Option<u32>
    ensures { IsNewborn setting.now.version table.now pid event.now result }
{
    match setting.version {
        TracesVersion::One => None,
        TracesVersion::Two => {
            let child = child_of(event)?;
            if child == pid || table.contains_key(&child) {
                None
            } else {
                Some(child)
            }
        }
    }
}

// A process with the history of the one with this number.
fn same_as<M: Monitor>(
    setting: &Setting,
    table: &IndexMap<u32, Process<M>>,
    pool: &mut M::Pool,
    pid: u32,
) -> Result<Process<M>, OutOfMemory>
    requires pool { M.is_pool pool.old setting.now.model }
    requires bound { IsBound setting.now.bound }
    requires history { (h : List Event') × HasHistory M.Monitor setting.now.model setting.now.bound pool.old h (get nat_eq table.now pid) }
    ensures pool { KeepsPool M.Monitor setting.now.model pool.old pool.new }
    ensures history { IfOk result (λ p. (h : List Event') → HasHistory M.Monitor setting.now.model setting.now.bound pool.old h (get nat_eq table.now pid) → IsAt M.Monitor setting.now.model setting.now.bound pool.new h p) }
{
    match table.get(&pid) {
        Some(process) => process.copy(setting, pool),
        None => Process::open(setting, pool),
    }
}

// The child that a process makes by this event.
fn born<M: Monitor>(
    setting: &Setting,
    table: &IndexMap<u32, Process<M>>,
    pool: &mut M::Pool,
    pid: u32,
    event: &Event,
) -> Result<Process<M>, OutOfMemory>
    requires pool { M.is_pool pool.old setting.now.model }
    requires bound { IsBound setting.now.bound }
    requires history { (h : List Event') × HasHistory M.Monitor setting.now.model setting.now.bound pool.old h (get nat_eq table.now pid) × (length h + 1 < 2 ^ 64) }
    ensures pool { KeepsPool M.Monitor setting.now.model pool.old pool.new }
    ensures history { IfOk result (λ p. (h : List Event') → HasHistory M.Monitor setting.now.model setting.now.bound pool.old h (get nat_eq table.now pid) → IsAt M.Monitor setting.now.model setting.now.bound pool.new (h ++ event.now ∷ []) p) }
{
    let mut child = same_as(setting, table, pool, pid)?;
    let _step = child.take(setting, pool, event)?;
    Ok(child)
}

// The first event of a process that isn't known.
fn begin<M: Monitor>(
    setting: &Setting,
    table: &mut IndexMap<u32, Process<M>>,
    pool: &mut M::Pool,
    pid: u32,
    event: &Event,
) -> Result<Step, OutOfMemory>
    requires pool { M.is_pool pool.old setting.now.model }
    requires bound { IsBound setting.now.bound }
    requires unknown { get nat_eq table.old pid ≡ None }
    ensures pool { KeepsPool M.Monitor setting.now.model pool.old pool.new }
    ensures history { OnOk result (HasHistory M.Monitor setting.now.model setting.now.bound pool.new (event.now ∷ []) (get nat_eq table.new pid)) }
    ensures exact { IfOk result (λ step. IsStep M.WHICH setting.now.model setting.now.bound (event.now ∷ []) step) }
    ensures others { (q : ℕ) → nat_eq pid q ≡ false → get nat_eq table.new q ≡ get nat_eq table.old q }
    ensures keys { OnOk result (keys table.new ≡ insert_key nat_eq (keys table.old) pid) }
    ensures err { OnErr result (table.new.entries ≡ table.old.entries) }
    ensures room { spare table.old ≤ spare table.new + 1 }
{
    let mut process = Process::open(setting, pool)?;
    let step = process.take(setting, pool, event)?;
    table.insert(pid, process)?;
    Ok(step)
}

// The next event of a process.
fn advance<M: Monitor>(
    setting: &Setting,
    table: &mut IndexMap<u32, Process<M>>,
    pool: &mut M::Pool,
    pid: u32,
    event: &Event,
) -> Result<Step, OutOfMemory>
    requires pool { M.is_pool pool.old setting.now.model }
    requires bound { IsBound setting.now.bound }
    requires history { (h : List Event') × HasHistory M.Monitor setting.now.model setting.now.bound pool.old h (get nat_eq table.old pid) × (length h + 1 < 2 ^ 64) }
    ensures pool { KeepsPool M.Monitor setting.now.model pool.old pool.new }
    ensures history { OnOk result ((h : List Event') → HasHistory M.Monitor setting.now.model setting.now.bound pool.old h (get nat_eq table.old pid) → HasHistory M.Monitor setting.now.model setting.now.bound pool.new (h ++ event.now ∷ []) (get nat_eq table.new pid)) }
    ensures exact { IfOk result (λ step. (h : List Event') → HasHistory M.Monitor setting.now.model setting.now.bound pool.old h (get nat_eq table.old pid) → IsStep M.WHICH setting.now.model setting.now.bound (h ++ event.now ∷ []) step) }
    ensures others { (q : ℕ) → nat_eq pid q ≡ false → get nat_eq table.new q ≡ get nat_eq table.old q }
    ensures keys { OnOk result (keys table.new ≡ insert_key nat_eq (keys table.old) pid) }
    ensures err { OnErr result ((h : List Event') → HasHistory M.Monitor setting.now.model setting.now.bound pool.old h (get nat_eq table.old pid) → HasHistory M.Monitor setting.now.model setting.now.bound pool.new h (get nat_eq table.new pid)) }
    ensures same { OnErr result (keys table.new ≡ keys table.old) }
    ensures room { spare table.old ≤ spare table.new + 1 }
{
    if let Some(process) = table.get_mut(&pid) {
        return process.take(setting, pool, event);
    }
    begin(setting, table, pool, pid, event)
}

// Makes a process known that isn't.
fn add<M: Monitor>(table: &mut IndexMap<u32, Process<M>>, pid: u32, process: Process<M>)
    requires room { 0 < spare table.old }
    ensures added { get nat_eq table.new pid ≡ Some process }
    ensures others { (q : ℕ) → nat_eq pid q ≡ false → get nat_eq table.new q ≡ get nat_eq table.old q }
    ensures keys { keys table.new ≡ insert_key nat_eq (keys table.old) pid }
{
    let _added = table.insert(pid, process).is_ok();
}

/// The next record, where the table has room for two more processes. Where memory is refused, the
/// processes have the histories that they had.
pub fn follow<M: Monitor>(
    setting: &Setting,
    table: &mut IndexMap<u32, Process<M>>,
    pool: &mut M::Pool,
    pid: u32,
    event: &Event,
) -> Result<Step, OutOfMemory>
    requires bound { IsBound setting.now.bound }
    requires room { 2 ≤ spare table.old }
    requires watched { (records : List Record) × AreWatched M.Monitor setting.now table.old pool.old records × (length records + 1 < 2 ^ 64) }
    ensures watched { OnOk result ((records : List Record) → AreWatched M.Monitor setting.now table.old pool.old records → AreWatched M.Monitor setting.now table.new pool.new (records ++ record_of pid event.now ∷ [])) }
    ensures exact { IfOk result (λ step. (records : List Record) → AreWatched M.Monitor setting.now table.old pool.old records → IsStep M.WHICH setting.now.model setting.now.bound (own setting.now.version pid (records ++ record_of pid event.now ∷ [])) step) }
    ensures err { OnErr result ((records : List Record) → AreWatched M.Monitor setting.now table.old pool.old records → AreWatched M.Monitor setting.now table.new pool.new records) }
{
    match newborn(setting, table, pid, event) {
        None => match advance(setting, table, pool, pid, event) {
            Ok(step) => Ok(step),
            Err(error) => Err(error),
        },
        Some(child) => {
            let process = born(setting, table, pool, pid, event)?;
            let step = advance(setting, table, pool, pid, event)?;
            add(table, child, process);
            Ok(step)
        }
    }
}

/// The processes of these numbers that are known, with the verdicts on their histories.
pub fn verdicts_of<M: Monitor>(
    alloc: Global,
    pids: &[u32],
    table: &IndexMap<u32, Process<M>>,
) -> Result<Vec<(u32, Verdict)>, OutOfMemory>
    ensures { IfOk result (λ list. list.items ≡ verdicts_told table.now pids.now) }
{
    let mut list = Vec::with_capacity(alloc, pids.len())?;
    for pid in pids {
        if let Some(process) = table.get(pid) {
            list.push((*pid, process.past.verdict()))?;
        }
    }
    Ok(list)
}
