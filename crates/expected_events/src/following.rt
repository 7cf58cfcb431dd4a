ghost use Rattle.std.specs.Prelude.{◌≡◌, ◌↔◌, ◌≤◌, ◌<◌, ◌+◌, ◌^◌, ℕ, List, [], ◌∷◌, ◌++◌, length, take, if◌then◌else◌, IfOk, OnOk, IsTrue};
ghost use Rattle.dm_base.specs.declared.event.Event.{Event};
ghost use Rattle.dm_base.specs.declared.verdict.Step.TheVariants.{Kept as Kept'};
ghost use Rattle.flow_model.specs.Graph.{Graph};
ghost use Rattle.flow_model.specs.Verdict.{IsAccepted, IsStep};
ghost use Rattle.report.specs.Trials.{KeepsPool};
ghost use Rattle.expected_events.specs.Following.{HasKept, IsFollowed, verdict_at};

use dm_base::{Event, OutOfMemory, Step, Verdict};
use flow_model::{Model, Monitor};
use std::alloc::Global;

// Before a run of so many events the monitor is copied, and after it the pool is swept.
const RUN: usize = 1_024;

/// A monitor that stands for the events of a trace that it kept, with its pool: how many these are, and
/// its verdict on the trace.
#[derive(Drop)]
pub struct Followed<M: Monitor> {
    pub pool: M::Pool,
    pub monitor: M,
    pub kept: usize,
    pub verdict: Verdict,
}

// Marks the monitor and sweeps its pool. Where memory is refused the pool stays unswept.
fn sweep<M: Monitor>(monitor: &M, pool: &mut M::Pool)
    requires { (g : Graph) × (k : ℕ) × (h : List Event) × M.is_pool pool.old g × M.stands monitor.now pool.old g k h × M.noted pool.old g [] }
    ensures pool { (g : Graph) → M.is_pool pool.old g → M.is_pool pool.new g }
    ensures stands { (g : Graph) (k : ℕ) (h : List Event) → M.is_pool pool.old g → M.noted pool.old g [] → M.stands monitor.now pool.old g k h → M.stands monitor.now pool.new g k h }
    ensures notes { (g : Graph) → M.is_pool pool.old g → M.noted pool.old g [] → M.noted pool.new g [] }
{
    match monitor.mark(pool) {
        Ok(()) => M::sweep(pool),
        Err(_) => {}
    }
}

// Feeds the monitor these events, up to the first that is not kept, and answers whether all are kept.
fn all_kept<M: Monitor>(
    monitor: &mut M,
    pool: &mut M::Pool,
    model: &Model,
    events: &[Event],
) -> Result<bool, OutOfMemory>
    requires pool { M.is_pool pool.old model.now }
    requires stands { (k : ℕ) × (h : List Event) × M.stands monitor.old pool.old model.now k h }
    ensures stands { IfOk result (λ all. IsTrue all → (k : ℕ) (h : List Event) → M.stands monitor.old pool.old model.now k h → M.stands monitor.new pool.new model.now k (h ++ events.now)) }
    ensures exact { IfOk result (λ all. (k : ℕ) (h : List Event) → M.stands monitor.old pool.old model.now k h → IsAccepted M.WHICH model.now k h → IsTrue all ↔ IsAccepted M.WHICH model.now k (h ++ events.now)) }
    ensures frame { KeepsPool M.is_pool M.stands M.noted model.now pool.old pool.new }
{
    for event in events {
        let step = monitor.feed(pool, model, event)?;
        if step != Step::Kept {
            return Ok(false);
        }
    }
    Ok(true)
}

// Has the monitor take these events if all are kept, and answers whether they are; else the monitor
// stays as it was.
fn take_run<M: Monitor>(
    monitor: &mut M,
    pool: &mut M::Pool,
    model: &Model,
    events: &[Event],
) -> Result<bool, OutOfMemory>
    requires pool { M.is_pool pool.old model.now }
    requires stands { (k : ℕ) × (h : List Event) × M.stands monitor.old pool.old model.now k h }
    ensures stands { IfOk result (λ all. (k : ℕ) (h : List Event) → M.stands monitor.old pool.old model.now k h → M.stands monitor.new pool.new model.now k (if all then h ++ events.now else h)) }
    ensures exact { IfOk result (λ all. (k : ℕ) (h : List Event) → M.stands monitor.old pool.old model.now k h → IsAccepted M.WHICH model.now k h → IsTrue all ↔ IsAccepted M.WHICH model.now k (h ++ events.now)) }
    ensures pool { M.is_pool pool.new model.now }
    ensures notes { M.noted pool.old model.now [] → M.noted pool.new model.now [] }
{
    let mut ahead = monitor.copy(pool)?;
    let all = all_kept(&mut ahead, pool, model, events)?;
    if !all {
        return Ok(false);
    }
    *monitor = ahead;
    Ok(true)
}

// Has the monitor take the events by runs of 1,024, up to the first run of which one is not kept, and
// answers how many it took.
fn take_runs<M: Monitor>(
    monitor: &mut M,
    pool: &mut M::Pool,
    model: &Model,
    events: &[Event],
) -> Result<usize, OutOfMemory>
    requires pool { M.is_pool pool.old model.now }
    requires kept { (k : ℕ) × HasKept (M.stands monitor.old pool.old model.now k) M.WHICH model.now k events.now 0 }
    requires notes { M.noted pool.old model.now [] }
    ensures pool { M.is_pool pool.new model.now }
    ensures kept { IfOk result (λ kept. (k : ℕ) → HasKept (M.stands monitor.old pool.old model.now k) M.WHICH model.now k events.now 0 → HasKept (M.stands monitor.new pool.new model.now k) M.WHICH model.now k events.now kept) }
    ensures stops { IfOk result (λ kept. (k : ℕ) → HasKept (M.stands monitor.old pool.old model.now k) M.WHICH model.now k events.now 0 → kept + RUN ≤ length events.now → IsAccepted M.WHICH model.now k (take (kept + RUN) events.now) → ⊥) }
    ensures notes { OnOk result (M.noted pool.new model.now []) }
{
    let mut kept = 0;
    while events.len() - kept >= RUN {
        let all = take_run(monitor, pool, model, &events[kept..kept + RUN])?;
        sweep(monitor, pool);
        if !all {
            return Ok(kept);
        }
        kept += RUN;
    }
    Ok(kept)
}

// Has the monitor take the next event, if it is kept; else the monitor stays as it was.
fn take_kept<M: Monitor>(
    monitor: &mut M,
    pool: &mut M::Pool,
    model: &Model,
    event: &Event,
) -> Result<Step, OutOfMemory>
    requires pool { M.is_pool pool.old model.now }
    requires stands { (k : ℕ) × (h : List Event) × M.stands monitor.old pool.old model.now k h }
    requires notes { M.noted pool.old model.now [] }
    ensures pool { M.is_pool pool.new model.now }
    ensures notes { OnOk result (M.noted pool.new model.now []) }
    ensures kept { IfOk result (λ step. (k : ℕ) (h : List Event) → step ≡ Kept' → M.stands monitor.old pool.old model.now k h → M.stands monitor.new pool.new model.now k (h ++ event.now ∷ [])) }
    ensures refused { IfOk result (λ step. (k : ℕ) (h : List Event) → (step ≡ Kept' → ⊥) → M.stands monitor.old pool.old model.now k h → M.stands monitor.new pool.new model.now k h) }
    ensures exact { IfOk result (λ step. (k : ℕ) (h : List Event) → M.stands monitor.old pool.old model.now k h → IsStep M.WHICH model.now k (h ++ event.now ∷ []) step) }
{
    let mut next = monitor.copy(pool)?;
    let step = next.feed(pool, model, event)?;
    match step {
        Step::Kept => {
            *monitor = next;
            Ok(Step::Kept)
        }
        Step::Rejected => Ok(Step::Rejected),
        Step::Bound => Ok(Step::Bound),
    }
}

// Has the monitor, which stands for so many of the events, go on to the first that is not kept.
fn follow_on<M: Monitor>(
    mut monitor: M,
    mut pool: M::Pool,
    model: &Model,
    events: &[Event],
    mut kept: usize,
) -> Result<Followed<M>, OutOfMemory>
    requires pool { M.is_pool pool model.now }
    requires kept { (k : ℕ) × HasKept (M.stands monitor pool model.now k) M.WHICH model.now k events.now kept }
    requires notes { M.noted pool model.now [] }
    ensures { IfOk result (λ f. (k : ℕ) → HasKept (M.stands monitor pool model.now k) M.WHICH model.now k events.now kept → IsFollowed (M.stands f.monitor f.pool model.now k) M.WHICH model.now k events.now f.kept f.verdict) }
{
    for event in &events[kept..] {
        let step = take_kept(&mut monitor, &mut pool, model, event)?;
        if step != Step::Kept {
            return Ok(Followed {
                pool,
                monitor,
                kept,
                verdict: verdict_at(step, kept as u64 + 1),
            });
        }
        kept += 1;
    }
    Ok(Followed {
        pool,
        monitor,
        kept,
        verdict: verdict_at(Step::Kept, kept as u64),
    })
}

/// Follows the events up to the first that is not kept.
pub fn follow<M: Monitor>(
    alloc: Global,
    model: &Model,
    events: &[Event],
    bound: u32,
) -> Result<Followed<M>, OutOfMemory>
    requires { (1 ≤ bound) × (bound < 2 ^ 16) }
    ensures { IfOk result (λ f. IsFollowed (M.stands f.monitor f.pool model.now bound) M.WHICH model.now bound events.now f.kept f.verdict) }
{
    let mut pool = M::pool(alloc, model)?;
    let mut monitor = M::open(&mut pool, model, bound)?;
    let kept = take_runs(&mut monitor, &mut pool, model, events)?;
    follow_on(monitor, pool, model, events, kept)
}

// The verdict with this number, where this was answered last.
fn verdict_at(last: Step, number: u64) -> Verdict
    ensures { result ≡ verdict_at last number }
{
    match last {
        Step::Kept => Verdict::Accepted { events: number },
        Step::Rejected => Verdict::Rejected { at: number },
        Step::Bound => Verdict::Bound { at: number },
    }
}
