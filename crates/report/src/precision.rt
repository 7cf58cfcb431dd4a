ghost use Rattle.std.specs.Prelude.{◌≡◌, ◌+◌, ◌*◌, ◌<◌, ◌≤◌, ◌^◌, ℕ, List, [], ◌∷◌, ◌++◌, length, IfOk, IsTrue, OnOk};
ghost use Rattle.dm_base.specs.declared.event.Event.{Event};
ghost use Rattle.flow_model.specs.Graph.{Graph};
ghost use Rattle.report.specs.Measuring.{HasMeasured};
ghost use Rattle.report.specs.Precision.{IsPrecision};

use crate::next::count_next;
use crate::trials::trials_of;
use dm_base::{Event, OutOfMemory, Step};
use flow_model::{Model, Monitor};
use std::alloc::Global;

// The greatest number of calls that may be open in the Dyck model.
const BOUND: u32 = 1_000;

// After so many events the pool is swept.
const SWEPT_AFTER: u64 = 1_024;

/// How precise a model is along a trace.
#[derive(Clone, Copy)]
pub struct Precision {
    /// How many first parts of the trace are kept, the empty one included.
    pub prefixes: u64,
    /// The sum, over these parts, of the number of names of system calls that may come next.
    pub sum: u64,
}

/// The precision of a model along a trace whose events come one at a time.
#[derive(Drop)]
pub struct Meter<M: Monitor> {
    pool: M::Pool,
    monitor: M,
    trials: Vec<Event>,
    figures: Precision,
    goes_on: bool,
}

impl<M: Monitor> std::marker::Model for Meter<M> {
    ghost use Rattle.report.specs.Measuring.{Measured};

    ghost Value = { Measured M.Pool M };

    ghost view = { λ m. record { pool = m.pool; monitor = m.monitor; trials = m.trials.items; figures = m.figures; goes_on = m.goes_on } };
}

impl<M: Monitor> Meter<M> {
    /// The empty trace is measured. The error is that memory was refused.
    pub fn open(alloc: Global, model: &Model) -> Result<Meter<M>, OutOfMemory>
        ensures { IfOk result (λ m. HasMeasured M.is_pool M.stands M.noted M.WHICH m model.now []) }
    {
        let trials = trials_of(alloc, model)?;
        let mut pool = M::pool(alloc, model)?;
        let monitor = M::open(&mut pool, model, BOUND)?;
        let next = count_next(&monitor, &mut pool, model, &trials)?;
        Ok(Meter {
            pool,
            monitor,
            trials,
            figures: Precision {
                prefixes: 1,
                sum: u64::from(next),
            },
            goes_on: true,
        })
    }

    /// Measures the next event; there are fewer than 2^32. Where memory is refused, the measure is of
    /// no more use.
    pub fn take(&mut self, model: &Model, event: &Event) -> Result<(), OutOfMemory>
        requires { (t : List Event) × HasMeasured M.is_pool M.stands M.noted M.WHICH self.old model.now t × (length t + 1 < 2 ^ 32) }
        ensures { OnOk result ((t : List Event) → HasMeasured M.is_pool M.stands M.noted M.WHICH self.old model.now t → HasMeasured M.is_pool M.stands M.noted M.WHICH self.new model.now (t ++ event.now ∷ [])) }
    {
        if !self.goes_on {
            return Ok(());
        }
        let step = self.monitor.feed(&mut self.pool, model, event)?;
        if is_refused(step) {
            self.goes_on = false;
            return Ok(());
        }
        let next = count_next(&self.monitor, &mut self.pool, model, &self.trials)?;
        self.figures = with_part(self.figures, next);
        sweep_each(&self.monitor, &mut self.pool, self.figures.prefixes);
        Ok(())
    }

    /// The precision along the events that were measured.
    pub fn figures(&self) -> Precision
        ensures { (g : Graph) (t : List Event) → HasMeasured M.is_pool M.stands M.noted M.WHICH self.now g t → IsPrecision M.WHICH g t result }
    {
        self.figures
    }
}

/// The precision of the model along the trace, which has fewer than 2^32 events. The error is that
/// memory was refused.
pub fn measure<M: Monitor>(
    alloc: Global,
    model: &Model,
    trace: &[Event],
) -> Result<Precision, OutOfMemory>
    requires { length trace.now < 2 ^ 32 }
    ensures { IfOk result (λ precision. IsPrecision M.WHICH model.now trace.now precision) }
{
    let mut measuring = Meter::<M>::open(alloc, model)?;
    for event in trace {
        measuring.take(model, event)?;
    }
    Ok(measuring.figures())
}

// Whether the step is not Kept.
fn is_refused(step: Step) -> bool
    ensures yes { IsTrue result → step ≡ Step.Kept → ⊥ }
    ensures no { (IsTrue result → ⊥) → step ≡ Step.Kept }
{
    match step {
        Step::Kept => false,
        Step::Rejected | Step::Bound => true,
    }
}

// The figures with one kept part more, after which so many names may come.
fn with_part(figures: Precision, next: u32) -> Precision
    requires prefixes { figures.prefixes ≤ 2 ^ 32 }
    requires sum { figures.sum ≤ 24 * 2 ^ 32 }
    ensures prefixes { result.prefixes ≡ figures.prefixes + 1 }
    ensures sum { result.sum ≡ figures.sum + next }
{
    Precision {
        prefixes: figures.prefixes + 1,
        sum: figures.sum + u64::from(next),
    }
}

// Marks the monitor and sweeps its pool after each 1,024th part. Where memory is refused the pool
// stays unswept.
fn sweep_each<M: Monitor>(monitor: &M, pool: &mut M::Pool, prefixes: u64)
    requires { (g : Graph) × (k : ℕ) × (h : List Event) × M.is_pool pool.old g × M.stands monitor.now pool.old g k h × M.noted pool.old g [] }
    ensures pool { (g : Graph) → M.is_pool pool.old g → M.is_pool pool.new g }
    ensures stands { (g : Graph) (k : ℕ) (h : List Event) → M.is_pool pool.old g → M.noted pool.old g [] → M.stands monitor.now pool.old g k h → M.stands monitor.now pool.new g k h }
    ensures notes { (g : Graph) → M.is_pool pool.old g → M.noted pool.old g [] → M.noted pool.new g [] }
{
    if prefixes % SWEPT_AFTER != 0 {
        return;
    }
    match monitor.mark(pool) {
        Ok(()) => M::sweep(pool),
        Err(_) => {}
    }
}
