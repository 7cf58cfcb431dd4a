ghost use Rattle.std.specs.Prelude.{◌≡◌, ◌<◌, ℕ, List, IfOk, IsErr, length, slice_index_or};
ghost use Rattle.flow_model.specs.Graph.{Graph};
ghost use Rattle.trace_file.specs.declared.record.Record.{Record};
ghost use Rattle.trace_file.specs.declared.version.TracesVersion.TheVariants.{One};
ghost use Rattle.watch.specs.declared.watch.Watch.{Watch as Watch'};
ghost use Rattle.watch.specs.Own.{own};
ghost use Rattle.watch.specs.Watching.{StandsFor as WatchStandsFor};
ghost use Rattle.fleet.specs.Alone.{IsAlone};
ghost use Rattle.fleet.specs.Going.{IsAt, IsUpToRefusal, number_of};
ghost use Rattle.fleet.specs.Members.{Group, Member, run_of};
ghost use Rattle.fleet.specs.declared.process.Process.{Process as Process'};
ghost use Rattle.fleet.specs.declared.process.Stage.TheVariants as stages;
ghost use Rattle.fleet.specs.declared.standing.Standing.TheVariants as standings;

use crate::Standing;
use crate::process::{Process, Stage};
use crate::stepping::event_refused;
use dm_base::{OutOfMemory, Outcome, Verdict};
use flow_model::Monitor;
use std::alloc::Global;
use watch::Watch;

// The number that a verdict tells: that of all events, or that of the event that was refused.
fn number_of(verdict: Verdict) -> u64
    ensures { result ≡ number_of verdict }
{
    match verdict {
        Verdict::Accepted { events } => events,
        Verdict::Rejected { at } => at,
        Verdict::Bound { at } => at,
    }
}

// How many events of the process the watch was given, where none comes after one that was refused.
fn made_of<M: Monitor>(watch: &Watch<M>, pid: u32) -> u64
    ensures { (g : Graph) (k : ℕ) (records : List Record) → WatchStandsFor M.Monitor g k One watch.now records → IsUpToRefusal M.WHICH g k (own One pid records) → result ≡ length (own One pid records) }
{
    match watch.verdict(pid) {
        Some(verdict) => number_of(verdict),
        None => 0,
    }
}

// A process that has ended so.
fn ended(made: u64, outcome: &Outcome) -> Standing
    ensures { result ≡ standings.Ended made outcome.now }
{
    Standing::Ended {
        made,
        outcome: *outcome,
    }
}

// What the process has come to, where this watch judges its events.
fn standing_of<M: Monitor>(
    alloc: Global,
    process: &Process,
    watch: &Watch<M>,
) -> Result<Standing, OutOfMemory>
    requires { (g : Group) × (records : List Record) × (m : Member) × WatchStandsFor M.Monitor g.model g.bound One watch.now records × IsAt M.WHICH g records process.now m }
    ensures exact { IfOk result (λ standing. (g : Group) (records : List Record) (m : Member) → WatchStandsFor M.Monitor g.model g.bound One watch.now records → IsAt M.WHICH g records process.now m → IsAlone M.WHICH g.model g.bound (run_of m) m.advances standing) }
    ensures fails { process.now.stage ≡ stages.Failed → IsErr result }
{
    let made = made_of(watch, process.pid);
    match &process.stage {
        Stage::Open => Ok(Standing::Open { made }),
        Stage::Rejected => {
            let event = event_refused(alloc, process.pid, watch)?;
            Ok(Standing::Rejected { at: made, event })
        }
        Stage::Bound => {
            let event = event_refused(alloc, process.pid, watch)?;
            Ok(Standing::Bound { at: made, event })
        }
        Stage::Ended(outcome) => Ok(ended(made, outcome)),
        Stage::Failed => Err(OutOfMemory),
    }
}

// What the process at this place has come to, whose events the watch of its group judges.
pub fn standing_at<M: Monitor>(
    alloc: Global,
    processes: &[Process],
    watches: &[Watch<M>],
    place: usize,
) -> Result<Standing, OutOfMemory>
    requires place { place < length processes.now }
    requires group { (d : Process') → (slice_index_or processes.now place d).group < length watches.now }
    requires judged { (d : Process') (e : Watch' M M.Pool) → let p = slice_index_or processes.now place d in (g : Group) × (records : List Record) × (m : Member) × WatchStandsFor M.Monitor g.model g.bound One (slice_index_or watches.now p.group e) records × IsAt M.WHICH g records p m }
    ensures exact { IfOk result (λ standing. (d : Process') (e : Watch' M M.Pool) → let p = slice_index_or processes.now place d in (g : Group) (records : List Record) (m : Member) → WatchStandsFor M.Monitor g.model g.bound One (slice_index_or watches.now p.group e) records → IsAt M.WHICH g records p m → IsAlone M.WHICH g.model g.bound (run_of m) m.advances standing) }
    ensures fails { (d : Process') → (slice_index_or processes.now place d).stage ≡ stages.Failed → IsErr result }
{
    let process = &processes[place];
    let group = process.group as usize;
    let watch = &watches[group];
    standing_of(alloc, process, watch)
}
