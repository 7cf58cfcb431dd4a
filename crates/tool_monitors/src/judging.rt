ghost use Rattle.std.specs.Prelude.{◌≡◌, ◌≤◌, ◌<◌, ◌-◌, ◌^◌, ℕ, List, [], ◌∷◌, ◌++◌, length, Option, None, Some, IfOk, OnOk, IfSome};
ghost use Rattle.std.specs.Option.{option_copied};
ghost use Rattle.dm_base.specs.declared.event.Event.{Event};
ghost use Rattle.flow_model.specs.Graph.{Graph};
ghost use Rattle.flow_model.specs.Verdict.{IsAccepted, IsStep, IsVerdict};
ghost use Rattle.report.specs.Precision.{IsNext};
ghost use Rattle.report.specs.VerdictLine.{verdict_text, IsGiven, event_at};
ghost use Rattle.sys_table.specs.Table.{IsRecorded};
ghost use Rattle.tool_monitors.specs.Judged.{status_of, AreJudged};
ghost use Rattle.tool_monitors.specs.Refused.{IsRefusedAt, IsKeptWhole, HasComeTo, HasFollowed};
ghost use Rattle.trace_file.specs.Trace.{most};

use crate::panel::Panel;
use dm_base::{Event, OutOfMemory, Status, Step, Verdict};
use flow_model::{Model, Monitor, Which};
use report::{next_names, verdict_line};
use std::alloc::Global;
use tool_frame::Finished;

// After so many events the pool is looked at, and swept where it has grown to twice what was needed.
const LOOKED_AT_AFTER: u64 = 1_024;

/// A verdict that is not Accepted, and the event at which it came.
#[derive(Drop)]
pub struct Refused {
    pub verdict: Verdict,
    pub event: Event,
}

/// One monitor with a pool of its own, how many keys the last sweep left in it, how many events the
/// monitor has kept, and where it refused the trace.
#[derive(Drop)]
pub struct Judging<M: Monitor> {
    pool: M::Pool,
    monitor: M,
    left: usize,
    kept: u64,
    refused: Option<Refused>,
}

// Marks the monitor and sweeps its pool. Where memory is refused the pool stays unswept.
fn sweep<M: Monitor>(monitor: &M, pool: &mut M::Pool)
    requires { (g : Graph) × (k : ℕ) × (h : List Event) × M.is_pool pool.old g × M.stands monitor.now pool.old g k h × M.noted pool.old g [] }
    ensures pool { (g : Graph) → M.is_pool pool.old g → M.is_pool pool.new g }
    ensures stands { (g : Graph) (k : ℕ) (h : List Event) → M.is_pool pool.old g → M.noted pool.old g [] → M.stands monitor.now pool.old g k h → M.stands monitor.now pool.new g k h }
    ensures notes { (g : Graph) → M.is_pool pool.old g → M.noted pool.old g [] → M.noted pool.new g [] }
{
    match monitor.mark(pool) {
        Ok(()) => M::sweep(pool),
        Err(_) => {}
    }
}

// Sweeps a pool that holds at least four times the keys that the last sweep left. Answers how many keys the
// last sweep left now.
fn sweep_if_grown<M: Monitor>(monitor: &M, pool: &mut M::Pool, left: usize) -> usize
    requires { (g : Graph) × (k : ℕ) × (h : List Event) × M.is_pool pool.old g × M.stands monitor.now pool.old g k h × M.noted pool.old g [] }
    ensures pool { (g : Graph) → M.is_pool pool.old g → M.is_pool pool.new g }
    ensures stands { (g : Graph) (k : ℕ) (h : List Event) → M.is_pool pool.old g → M.noted pool.old g [] → M.stands monitor.now pool.old g k h → M.stands monitor.now pool.new g k h }
    ensures notes { (g : Graph) → M.is_pool pool.old g → M.noted pool.old g [] → M.noted pool.new g [] }
{
    if M::held(pool) / 4 < left {
        return left;
    }
    sweep(monitor, pool);
    M::held(pool)
}

// Feeds the event that follows so many kept ones, and looks after each 1,024th whether to sweep.
fn feed_next<M: Monitor>(
    monitor: &mut M,
    pool: &mut M::Pool,
    left: &mut usize,
    model: &Model,
    event: &Event,
    kept: u64,
) -> Result<Step, OutOfMemory>
    requires pool { M.is_pool pool.old model.now }
    requires stands { (k : ℕ) × (h : List Event) × M.stands monitor.old pool.old model.now k h }
    requires notes { M.noted pool.old model.now [] }
    requires few { kept < 2 ^ 64 - 1 }
    ensures pool { M.is_pool pool.new model.now }
    ensures notes { OnOk result (M.noted pool.new model.now []) }
    ensures stands { OnOk result ((k : ℕ) (h : List Event) → M.stands monitor.old pool.old model.now k h → M.stands monitor.new pool.new model.now k (h ++ event.now ∷ [])) }
    ensures exact { IfOk result (λ step. (k : ℕ) (h : List Event) → M.stands monitor.old pool.old model.now k h → IsStep M.WHICH model.now k (h ++ event.now ∷ []) step) }
{
    let step = monitor.feed(pool, model, event)?;
    if (kept + 1) % LOOKED_AT_AFTER == 0 {
        *left = sweep_if_grown(monitor, pool, *left);
    }
    Ok(step)
}

// The line of the verdict, and its status.
fn told(
    alloc: Global,
    which: Which,
    verdict: Verdict,
    event: Option<&Event>,
) -> Result<Finished, OutOfMemory>
    requires given { IsGiven verdict (option_copied event) }
    requires recorded { IfSome event (λ e. IsRecorded e.now) }
    ensures status { IfOk result (λ done. done.status ≡ status_of verdict) }
    ensures text { IfOk result (λ done. done.text.items ≡ verdict_text which verdict (option_copied event.entry)) }
{
    let text = verdict_line(alloc, which, &verdict, event)?;
    Ok(Finished {
        status: status_of(verdict),
        text,
    })
}

/// The status of the verdict alone.
pub fn status_of(verdict: Verdict) -> Status
    ensures { result ≡ status_of verdict }
{
    match verdict {
        Verdict::Accepted { .. } => Status::Done,
        Verdict::Rejected { .. } => Status::Rejected,
        Verdict::Bound { .. } => Status::Bound,
    }
}

// What is kept of a refusal: its verdict, and a copy of the event.
fn refusal(alloc: Global, verdict: Verdict, event: &Event) -> Result<Refused, OutOfMemory>
    ensures { IfOk result (λ r. r ≡ record { verdict = verdict; event = event.now }) }
{
    Ok(Refused {
        verdict,
        event: event.copy(alloc)?,
    })
}

impl<M: Monitor> Judging<M> {
    /// Follows the next event. Where memory is refused, the monitor is of no more use.
    pub fn follow(&mut self, alloc: Global, model: &Model, event: &Event) -> Result<(), OutOfMemory>
        requires followed { (k : ℕ) × (h : List Event) × HasFollowed (M.is_pool self.old.pool model.now) (M.noted self.old.pool model.now []) (M.stands self.old.monitor self.old.pool model.now k h) M.WHICH model.now k h self.old.kept self.old.refused × (length h < 2 ^ 64 - 1) }
        requires recorded { IsRecorded event.now }
        ensures { OnOk result ((k : ℕ) (h : List Event) → HasFollowed (M.is_pool self.old.pool model.now) (M.noted self.old.pool model.now []) (M.stands self.old.monitor self.old.pool model.now k h) M.WHICH model.now k h self.old.kept self.old.refused → HasFollowed (M.is_pool self.new.pool model.now) (M.noted self.new.pool model.now []) (M.stands self.new.monitor self.new.pool model.now k (h ++ event.now ∷ [])) M.WHICH model.now k (h ++ event.now ∷ []) self.new.kept self.new.refused) }
    {
        match &self.refused {
            Some(_) => return Ok(()),
            None => {}
        }
        let step = feed_next(
            &mut self.monitor,
            &mut self.pool,
            &mut self.left,
            model,
            event,
            self.kept,
        )?;
        match step {
            Step::Kept => self.kept += 1,
            Step::Rejected => {
                let at = self.kept + 1;
                self.refused = Some(refusal(alloc, Verdict::Rejected { at }, event)?);
            }
            Step::Bound => {
                let at = self.kept + 1;
                self.refused = Some(refusal(alloc, Verdict::Bound { at }, event)?);
            }
        }
        Ok(())
    }

    /// How many names of system calls may come next after the events that were followed, 0 where the monitor has refused them.
    pub fn next_names(&mut self, alloc: Global, model: &Model) -> Result<u32, OutOfMemory>
        requires { (k : ℕ) × (h : List Event) × HasFollowed (M.is_pool self.old.pool model.now) (M.noted self.old.pool model.now []) (M.stands self.old.monitor self.old.pool model.now k h) M.WHICH model.now k h self.old.kept self.old.refused }
        ensures next { IfOk result (λ n. (k : ℕ) (h : List Event) → HasFollowed (M.is_pool self.old.pool model.now) (M.noted self.old.pool model.now []) (M.stands self.old.monitor self.old.pool model.now k h) M.WHICH model.now k h self.old.kept self.old.refused → IsNext M.WHICH model.now k h n) }
        ensures same { OnOk result ((k : ℕ) (h : List Event) → HasFollowed (M.is_pool self.old.pool model.now) (M.noted self.old.pool model.now []) (M.stands self.old.monitor self.old.pool model.now k h) M.WHICH model.now k h self.old.kept self.old.refused → HasFollowed (M.is_pool self.new.pool model.now) (M.noted self.new.pool model.now []) (M.stands self.new.monitor self.new.pool model.now k h) M.WHICH model.now k h self.new.kept self.new.refused) }
    {
        match &self.refused {
            Some(_) => return Ok(0),
            None => {}
        }
        let count = next_names(alloc, &self.monitor, &mut self.pool, model)?;
        Ok(count)
    }
}

impl<M: Monitor> Panel for Judging<M> {
    ghost judged = { λ j g k h. M.is_pool j.pool g × M.noted j.pool g [] × HasComeTo (M.stands j.monitor j.pool g k h) M.WHICH g k h j.kept j.refused };

    ghost tells = { λ g k h status text. AreJudged (M.WHICH ∷ []) g k h status text };

    fn open(alloc: Global, model: &Model, bound: u32) -> Result<Self, OutOfMemory> {
        let mut pool = M::pool(alloc, model)?;
        let monitor = M::open(&mut pool, model, bound)?;
        Ok(Judging {
            pool,
            monitor,
            left: 0,
            kept: 0,
            refused: None,
        })
    }

    fn take(&mut self, alloc: Global, model: &Model, event: &Event) -> Result<(), OutOfMemory> {
        self.follow(alloc, model, event)?;
        Ok(())
    }

    fn finish(self, alloc: Global) -> Result<Finished, OutOfMemory> {
        match &self.refused {
            None => told(
                alloc,
                M::WHICH,
                Verdict::Accepted { events: self.kept },
                None,
            ),
            Some(refused) => told(alloc, M::WHICH, refused.verdict, Some(&refused.event)),
        }
    }
}
