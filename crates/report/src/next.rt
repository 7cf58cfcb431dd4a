ghost use Rattle.std.specs.Prelude.{◌≡◌, ◌↔◌, ◌≤◌, ◌+◌, ℕ, List, [], ◌∷◌, ◌++◌, IfOk, IsTrue};
ghost use Rattle.dm_base.specs.declared.event.Event.{Event};
ghost use Rattle.flow_model.specs.Verdict.{IsAccepted};
ghost use Rattle.report.specs.Precision.{IsNext, IsNumberOf};
ghost use Rattle.report.specs.Trials.{AreTrials, Comes, IsNamed, KeepsPool};

use crate::trials::trials_of;
use dm_base::{Event, OutOfMemory, Step};
use flow_model::{Model, Monitor};
use std::alloc::Global;

// How many system calls there are.
const CALLS: u8 = 24;

/// How many names of system calls may come next after the history of the monitor: a name counts where
/// some event with it, such as a trace records, is kept. It is 0 where the history is not accepted.
/// The pool stays the model's, and each monitor that stood for a history in it stands for it still,
/// also where memory is refused; the pool may then hold more than anybody needs.
pub fn next_names<M: Monitor>(
    alloc: Global,
    monitor: &M,
    pool: &mut M::Pool,
    model: &Model,
) -> Result<u32, OutOfMemory>
    requires pool { M.is_pool pool.old model.now }
    requires stands { (k : ℕ) × (h : List Event) × M.stands monitor.now pool.old model.now k h }
    ensures exact { IfOk result (λ n. (k : ℕ) (h : List Event) → M.stands monitor.now pool.old model.now k h → IsNext M.WHICH model.now k h n) }
    ensures few { IfOk result (λ n. n ≤ 24) }
    ensures pool { M.is_pool pool.new model.now }
    ensures others { (m : M) (k : ℕ) (h : List Event) → M.stands m pool.old model.now k h → M.stands m pool.new model.now k h }
    ensures notes { M.noted pool.old model.now [] → M.noted pool.new model.now [] }
{
    let trials = trials_of(alloc, model)?;
    count_next(monitor, pool, model, &trials)
}

/// The same, where the trials of the model are known.
pub fn count_next<M: Monitor>(
    monitor: &M,
    pool: &mut M::Pool,
    model: &Model,
    trials: &[Event],
) -> Result<u32, OutOfMemory>
    requires pool { M.is_pool pool.old model.now }
    requires stands { (k : ℕ) × (h : List Event) × M.stands monitor.now pool.old model.now k h }
    requires trials { AreTrials model.now trials.now }
    ensures exact { IfOk result (λ n. (k : ℕ) (h : List Event) → M.stands monitor.now pool.old model.now k h → IsNext M.WHICH model.now k h n) }
    ensures few { IfOk result (λ n. n ≤ 24) }
    ensures frame { KeepsPool M.is_pool M.stands M.noted model.now pool.old pool.new }
{
    let mut count = 0;
    for number in 0..CALLS {
        let kept = comes(monitor, pool, model, trials, number)?;
        count = counted(count, kept);
    }
    Ok(count)
}

// The count with one name more, where that name comes.
fn counted(count: u32, comes: bool) -> u32
    requires { count ≤ 24 }
    ensures more { IsTrue comes → result ≡ count + 1 }
    ensures same { (IsTrue comes → ⊥) → result ≡ count }
    ensures few { result ≤ count + 1 }
{
    if comes { count + 1 } else { count }
}

// Whether some trial with the name of this number is kept.
fn comes<M: Monitor>(
    monitor: &M,
    pool: &mut M::Pool,
    model: &Model,
    trials: &[Event],
    number: u8,
) -> Result<bool, OutOfMemory>
    requires pool { M.is_pool pool.old model.now }
    requires stands { (k : ℕ) × (h : List Event) × M.stands monitor.now pool.old model.now k h }
    ensures exact { IfOk result (λ kept. (k : ℕ) (h : List Event) → M.stands monitor.now pool.old model.now k h → IsTrue kept ↔ Comes M.WHICH model.now k h trials.now number) }
    ensures frame { KeepsPool M.is_pool M.stands M.noted model.now pool.old pool.new }
{
    for event in trials {
        if is_named(event, number) && is_kept(monitor, pool, model, event)? {
            return Ok(true);
        }
    }
    Ok(false)
}

// Whether the event is a system call with the name of this number.
fn is_named(event: &Event, number: u8) -> bool
    ensures { IsTrue result ↔ IsNamed number event.now }
{
    match event {
        Event::Sys { name, .. } => name.index() == number,
        Event::Pre(_) | Event::Post(_) => false,
    }
}

// Whether the history of the monitor and then this event are accepted.
fn is_kept<M: Monitor>(
    monitor: &M,
    pool: &mut M::Pool,
    model: &Model,
    event: &Event,
) -> Result<bool, OutOfMemory>
    requires pool { M.is_pool pool.old model.now }
    requires stands { (k : ℕ) × (h : List Event) × M.stands monitor.now pool.old model.now k h }
    ensures exact { IfOk result (λ kept. (k : ℕ) (h : List Event) → M.stands monitor.now pool.old model.now k h → IsTrue kept ↔ IsAccepted M.WHICH model.now k (h ++ event.now ∷ [])) }
    ensures frame { KeepsPool M.is_pool M.stands M.noted model.now pool.old pool.new }
{
    let mut trial = monitor.copy(pool)?;
    let step = trial.feed(pool, model, event)?;
    Ok(step == Step::Kept)
}
