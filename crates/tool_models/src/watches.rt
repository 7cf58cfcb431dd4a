ghost use Rattle.std.specs.Prelude.{◌≡◌, ◌≤◌, ◌<◌, ◌^◌, true, ℕ, List, [], ◌∷◌, ◌++◌, All, length, IfOk, OnOk};
ghost use Rattle.flow_model.specs.declared.which.Which.{Which};
ghost use Rattle.flow_model.specs.Graph.{Graph};
ghost use Rattle.sys_table.specs.Table.{IsRecorded};
ghost use Rattle.trace_file.specs.declared.record.Record.{Record};
ghost use Rattle.trace_file.specs.declared.version.TracesVersion.{TracesVersion};
ghost use Rattle.trace_file.specs.Known.{known_count};
ghost use Rattle.trace_file.specs.Trace.{most};
ghost use Rattle.trace_file.specs.Traces.{most_processes};
ghost use Rattle.watch.specs.Own.{firsts, has_record, own, record_of};
ghost use Rattle.tool_models.specs.Watched.{asked_of, asked_about};
ghost use Rattle.tool_models.specs.Found.{AreFound};

use crate::findings::Findings;
use dm_base::{Event, OutOfMemory};
use flow_model::Model;
use std::alloc::Global;
use trace_file::TracesVersion;

/// Watches of one or several monitors that are given the same records of many processes.
pub trait Watches: Sized + Drop {
    /// These records were given, of this version, and judged by this model and up to this bound.
    ghost watched: { Self → Graph → ℕ → TracesVersion → List Record → Type 0 };

    /// The monitors, in the order of their lines.
    ghost monitors: { List Which };

    /// Watches that were given no record.
    fn open(
        alloc: Global,
        model: &Model,
        bound: u32,
        version: TracesVersion,
    ) -> Result<Self, OutOfMemory>
        requires { (1 ≤ bound) × (bound < 2 ^ 16) }
        ensures { IfOk result (λ w. watched w model.now bound version []) };

    /// Takes the next record. Where memory is refused, the watches are of no more use.
    fn take(&mut self, pid: u32, event: &Event) -> Result<(), OutOfMemory>
        requires { (g : Graph) × (k : ℕ) × (version : TracesVersion) × (records : List Record) × watched self.old g k version records × (length records < most) × (known_count version (records ++ record_of pid event.now ∷ []) ≤ most_processes) }
        ensures { OnOk result ((g : Graph) (k : ℕ) (version : TracesVersion) (records : List Record) → watched self.old g k version records → watched self.new g k version (records ++ record_of pid event.now ∷ [])) };

    /// The processes that have a record, in the order of their first records.
    fn pids(&self, alloc: Global) -> Result<Vec<u32>, OutOfMemory>
        ensures { IfOk result (λ pids. (g : Graph) (k : ℕ) (version : TracesVersion) (records : List Record) → watched self.now g k version records → pids.items ≡ firsts records) };

    /// Adds what is found of a process that has a record. Each event that was given is recorded.
    fn tell(&self, alloc: Global, pid: u32, findings: &mut Findings) -> Result<(), OutOfMemory>
        requires { (g : Graph) × (k : ℕ) × (version : TracesVersion) × (records : List Record) × watched self.now g k version records × All (λ r. IsRecorded r.event) records × (has_record records pid ≡ true) }
        ensures { OnOk result ((g : Graph) (k : ℕ) (version : TracesVersion) (records : List Record) (asked : List (ℕ × Which)) → watched self.now g k version records → AreFound g k (λ p. own version p records) asked findings.old → AreFound g k (λ p. own version p records) (asked ++ asked_of monitors pid) findings.new) };
}

/// What is found of all processes that have a record. Each event that was given is recorded.
pub fn findings_of<W: Watches>(alloc: Global, watches: &W) -> Result<Findings, OutOfMemory>
    requires { (g : Graph) × (k : ℕ) × (version : TracesVersion) × (records : List Record) × W.watched watches.now g k version records × All (λ r. IsRecorded r.event) records }
    ensures { IfOk result (λ f. (g : Graph) (k : ℕ) (version : TracesVersion) (records : List Record) → W.watched watches.now g k version records → AreFound g k (λ p. own version p records) (asked_about W.monitors (firsts records)) f) }
{
    let pids = watches.pids(alloc)?;
    let mut findings = Findings::new(alloc);
    for pid in &pids {
        watches.tell(alloc, *pid, &mut findings)?;
    }
    Ok(findings)
}
