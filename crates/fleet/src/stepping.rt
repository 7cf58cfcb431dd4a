ghost use Rattle.std.specs.Prelude.{◌≡◌, ◌<◌, ◌+◌, ◌++◌, ℕ, List, Some, IfOk, OnErr, IsErr, length, slice_index_or, slice_set};
ghost use Rattle.dm_base.specs.declared.event.Event.{Event as Event'};
ghost use Rattle.dm_base.specs.declared.verdict.Verdict.{Verdict};
ghost use Rattle.flow_model.specs.Graph.{Graph};
ghost use Rattle.flow_model.specs.Verdict.{IsVerdict};
ghost use Rattle.trace_file.specs.declared.record.Record.{Record};
ghost use Rattle.trace_file.specs.declared.version.TracesVersion.{TracesVersion};
ghost use Rattle.trace_file.specs.declared.version.TracesVersion.TheVariants.{One};
ghost use Rattle.trace_file.specs.Known.{known_count};
ghost use Rattle.trace_file.specs.Traces.{most_processes};
ghost use Rattle.watch.specs.declared.watch.Watch.{Watch as Watch'};
ghost use Rattle.watch.specs.Own.{has_record, own, record_of};
ghost use Rattle.watch.specs.Pasts.{refused_event};
ghost use Rattle.watch.specs.Watching.{StandsFor as WatchStandsFor};
ghost use Rattle.fleet.specs.Alone.{IsAnswer};
ghost use Rattle.fleet.specs.Going.{HasAdvanced, HasRefused, IsAt, IsReady, IsSameProcess, added_at, answer_of, stage_of};
ghost use Rattle.fleet.specs.Members.{Group, Member, one_more, run_of};
ghost use Rattle.fleet.specs.declared.advance.Advance.TheVariants.{Ended};
ghost use Rattle.fleet.specs.declared.process.Process.{Process as Process'};
ghost use Rattle.fleet.specs.declared.process.Stage.TheVariants as stages;

use crate::Advance;
use crate::process::{Process, Stage};
use dm_base::{Event, OutOfMemory, Outcome, Step};
use flow_model::Monitor;
use ref_machine::{Next, next_event};
use std::alloc::Global;
use std::mem;
use watch::Watch;

// The answer of a process that has ended so.
fn ended(outcome: &Outcome) -> Advance
    ensures { result ≡ Ended outcome.now }
{
    Advance::Ended(*outcome)
}

// The stage of a process whose new event was judged so.
fn stage_after(step: Step) -> Stage
    ensures { result ≡ stage_of step }
{
    match step {
        Step::Kept => Stage::Open,
        Step::Rejected => Stage::Rejected,
        Step::Bound => Stage::Bound,
    }
}

// The answer where a new event is judged so.
fn answer_after(event: Event, step: Step) -> Advance
    ensures { result ≡ answer_of event step }
{
    match step {
        Step::Kept => Advance::Made(event),
        Step::Rejected => Advance::Rejected(event),
        Step::Bound => Advance::Bound(event),
    }
}

// The process makes its next event, which the watch judges, or its run ends.
fn make_step<M: Monitor>(
    process: &mut Process,
    watch: &mut Watch<M>,
) -> Result<Advance, OutOfMemory>
    requires { (g : Group) × (records : List Record) × (m : Member) × IsReady M.Monitor g records watch.old stages.Open process.old m }
    ensures records { IfOk result (λ answer. (g : Graph) (k : ℕ) (version : TracesVersion) (records : List Record) → WatchStandsFor M.Monitor g k version watch.old records → WatchStandsFor M.Monitor g k version watch.new (records ++ added_at process.old.pid stages.Open answer)) }
    ensures same { OnErr result ((g : Graph) (k : ℕ) (version : TracesVersion) (records : List Record) → WatchStandsFor M.Monitor g k version watch.old records → WatchStandsFor M.Monitor g k version watch.new records) }
    ensures at { IfOk result (λ answer. (g : Group) (records : List Record) (m : Member) → IsReady M.Monitor g records watch.old stages.Open process.old m → IsAt M.WHICH g (records ++ added_at process.old.pid stages.Open answer) process.new (one_more m)) }
    ensures exact { IfOk result (λ answer. (g : Group) (records : List Record) (m : Member) → IsReady M.Monitor g records watch.old stages.Open process.old m → IsAnswer M.WHICH g.model g.bound (run_of m) (m.advances + 1) answer) }
    ensures kept { IsSameProcess process.old process.new }
    ensures stage { OnErr result (process.new.stage ≡ process.old.stage) }
{
    let next = next_event(&mut process.machine, process.results, &mut process.taken)?;
    match next {
        Next::End(outcome) => {
            let answer = ended(&outcome);
            process.stage = Stage::Ended(outcome);
            Ok(answer)
        }
        Next::Event(event) => {
            let step = watch.step(process.pid, &event)?;
            process.stage = stage_after(step);
            Ok(answer_after(event, step))
        }
    }
}

// The event at which a process was refused.
pub fn event_refused<M: Monitor>(
    alloc: Global,
    pid: u32,
    watch: &Watch<M>,
) -> Result<Event, OutOfMemory>
    requires { HasRefused M.Monitor watch.now pid }
    ensures { IfOk result (λ event. (g : Graph) (k : ℕ) (version : TracesVersion) (records : List Record) (verdict : Verdict) → WatchStandsFor M.Monitor g k version watch.now records → IsVerdict M.WHICH g k (own version pid records) verdict → refused_event verdict (own version pid records) ≡ Some event) }
{
    match watch.refused(pid) {
        Some(event) => event.copy(alloc),
        None => unreachable!(),
    }
}

// Advances a process whose events this watch judges.
pub fn advance<M: Monitor>(
    alloc: Global,
    process: &mut Process,
    watch: &mut Watch<M>,
) -> Result<Advance, OutOfMemory>
    requires { (g : Group) × (records : List Record) × (m : Member) × IsReady M.Monitor g records watch.old process.old.stage process.old m }
    ensures records { IfOk result (λ answer. (g : Graph) (k : ℕ) (version : TracesVersion) (records : List Record) → WatchStandsFor M.Monitor g k version watch.old records → WatchStandsFor M.Monitor g k version watch.new (records ++ added_at process.old.pid process.old.stage answer)) }
    ensures same { OnErr result ((g : Graph) (k : ℕ) (version : TracesVersion) (records : List Record) → WatchStandsFor M.Monitor g k version watch.old records → WatchStandsFor M.Monitor g k version watch.new records) }
    ensures at { IfOk result (λ answer. (g : Group) (records : List Record) (m : Member) → IsReady M.Monitor g records watch.old process.old.stage process.old m → IsAt M.WHICH g (records ++ added_at process.old.pid process.old.stage answer) process.new (one_more m)) }
    ensures exact { IfOk result (λ answer. (g : Group) (records : List Record) (m : Member) → IsReady M.Monitor g records watch.old process.old.stage process.old m → IsAnswer M.WHICH g.model g.bound (run_of m) (m.advances + 1) answer) }
    ensures kept { IsSameProcess process.old process.new }
    ensures failed { OnErr result (process.new.stage ≡ stages.Failed) }
    ensures fails { process.old.stage ≡ stages.Failed → IsErr result }
{
    let stage = mem::replace(&mut process.stage, Stage::Failed);
    match stage {
        Stage::Open => {
            let answer = make_step(process, watch)?;
            Ok(answer)
        }
        Stage::Rejected => {
            let event = event_refused(alloc, process.pid, watch)?;
            process.stage = Stage::Rejected;
            Ok(Advance::Rejected(event))
        }
        Stage::Bound => {
            let event = event_refused(alloc, process.pid, watch)?;
            process.stage = Stage::Bound;
            Ok(Advance::Bound(event))
        }
        Stage::Ended(outcome) => {
            let answer = ended(&outcome);
            process.stage = Stage::Ended(outcome);
            Ok(answer)
        }
        Stage::Failed => Err(OutOfMemory),
    }
}

// Advances the process at this place, whose events the watch of its group judges.
pub fn advance_at<M: Monitor>(
    alloc: Global,
    processes: &mut [Process],
    watches: &mut [Watch<M>],
    place: usize,
) -> Result<Advance, OutOfMemory>
    requires place { place < length processes.old }
    requires group { (d : Process') → (slice_index_or processes.old place d).group < length watches.old }
    requires ready { (d : Process') (e : Watch' M M.Pool) → let p = slice_index_or processes.old place d in (g : Group) × (records : List Record) × (m : Member) × IsReady M.Monitor g records (slice_index_or watches.old p.group e) p.stage p m }
    ensures { (d : Process') (e : Watch' M M.Pool) → let p = slice_index_or processes.old place d in (q : Process') × (v : Watch' M M.Pool) × (processes.new ≡ slice_set processes.old place q) × (watches.new ≡ slice_set watches.old p.group v) × HasAdvanced M.Monitor p q (slice_index_or watches.old p.group e) v result }
{
    let process = &mut processes[place];
    let group = process.group as usize;
    let watch = &mut watches[group];
    let answer = advance(alloc, process, watch);
    answer
}
