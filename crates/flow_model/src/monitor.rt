ghost use Rattle.std.specs.Prelude.{◌≡◌, ◌<◌, ◌≤◌, ◌^◌, ℕ, List, [], ◌∷◌, ◌++◌, Contains, IfOk, OnOk, OnErr};
ghost use Rattle.dm_base.specs.declared.event.Event.{Event};
ghost use Rattle.flow_model.specs.declared.which.Which.{Which};
ghost use Rattle.flow_model.specs.Graph.{Graph};
ghost use Rattle.flow_model.specs.Verdict.{IsAccepted, IsStep};

use crate::{Model, Which};
use dm_base::{Event, OutOfMemory, Step};
use std::alloc::Global;

/// Judges the events of one process, one at a time, by one language of a model.
///
/// The monitors of one model share a pool, which may be as little as working space. A monitor says
/// of a history, which is the list of the events that it was fed, that it stands for it; all that it
/// answers is exact for every history that it stands for.
///
/// What no process needs any more is freed by a sweep: first each monitor that is still needed is
/// marked, which notes it in the pool, and then the pool is swept.
pub trait Monitor: Sized + Drop {
    /// The language that is judged.
    const WHICH: Which;

    /// What the monitors of one model share.
    type Pool: Drop;

    /// The language that is judged.
    ghost WHICH: { Which };

    /// The pool is one of the model.
    ghost is_pool: { Self.Pool → Graph → Type 0 };

    /// In this pool, of this model and up to this bound, the monitor stands for this history.
    ghost stands: { Self → Self.Pool → Graph → ℕ → List Event → Type 0 };

    /// The monitors that the notes of the pool are of.
    ghost noted: { Self.Pool → Graph → List Self → Type 0 };

    /// The pool holds exactly what these monitors need.
    ghost needed: { Self.Pool → Graph → List Self → Type 0 };

    /// A pool of the model, in which no monitor is noted.
    fn pool(alloc: Global, model: &Model) -> Result<Self::Pool, OutOfMemory>
        ensures pool { IfOk result (λ p. is_pool p model.now) }
        ensures notes { IfOk result (λ p. noted p model.now []) };

    /// A monitor that stands for the empty history. The bound is the greatest number of calls that
    /// may be open at once in the Dyck model, 1 to 65,535. Where memory is refused the pool may hold
    /// more than anybody needs.
    fn open(pool: &mut Self::Pool, model: &Model, bound: u32) -> Result<Self, OutOfMemory>
        requires pool { is_pool pool.old model.now }
        requires bound { (1 ≤ bound) × (bound < 2 ^ 16) }
        ensures pool { is_pool pool.new model.now }
        ensures stands { IfOk result (λ m. stands m pool.new model.now bound []) }
        ensures empty { OnOk result (IsAccepted WHICH model.now bound []) }
        ensures others { (m : Self) (k : ℕ) (h : List Event) → stands m pool.old model.now k h → stands m pool.new model.now k h }
        ensures notes { noted pool.old model.now [] → noted pool.new model.now [] };

    /// Takes the next event of the process, and answers as the verdict on its history has it. After
    /// Rejected or Bound it answers the same again. Where memory is refused the monitor stands for
    /// the history that it stood for, and the pool may hold more than anybody needs.
    fn feed(
        &mut self,
        pool: &mut Self::Pool,
        model: &Model,
        event: &Event,
    ) -> Result<Step, OutOfMemory>
        requires pool { is_pool pool.old model.now }
        requires stands { (k : ℕ) × (h : List Event) × stands self.old pool.old model.now k h }
        ensures pool { is_pool pool.new model.now }
        ensures stands { OnOk result ((k : ℕ) (h : List Event) → stands self.old pool.old model.now k h → stands self.new pool.new model.now k (h ++ event.now ∷ [])) }
        ensures exact { IfOk result (λ step. (k : ℕ) (h : List Event) → stands self.old pool.old model.now k h → IsStep WHICH model.now k (h ++ event.now ∷ []) step) }
        ensures err { OnErr result ((k : ℕ) (h : List Event) → stands self.old pool.old model.now k h → stands self.new pool.new model.now k h) }
        ensures others { (m : Self) (k : ℕ) (h : List Event) → stands m pool.old model.now k h → stands m pool.new model.now k h }
        ensures notes { noted pool.old model.now [] → noted pool.new model.now [] };

    /// A second monitor that stands for the same history.
    fn copy(&self, pool: &mut Self::Pool) -> Result<Self, OutOfMemory>
        requires stands { (g : Graph) × (k : ℕ) × (h : List Event) × is_pool pool.old g × stands self.now pool.old g k h }
        ensures pool { (g : Graph) → is_pool pool.old g → is_pool pool.new g }
        ensures copy { IfOk result (λ m. (g : Graph) (k : ℕ) (h : List Event) → stands self.now pool.old g k h → stands m pool.new g k h) }
        ensures others { (m : Self) (g : Graph) (k : ℕ) (h : List Event) → stands m pool.old g k h → stands m pool.new g k h }
        ensures notes { (g : Graph) → noted pool.old g [] → noted pool.new g [] };

    /// Notes that this monitor is still needed. Where memory is refused no monitor is noted.
    fn mark(&self, pool: &mut Self::Pool) -> Result<(), OutOfMemory>
        requires stands { (g : Graph) × (k : ℕ) × (h : List Event) × is_pool pool.old g × stands self.now pool.old g k h }
        ensures pool { (g : Graph) → is_pool pool.old g → is_pool pool.new g }
        ensures ok { OnOk result ((g : Graph) (ms : List Self) → noted pool.old g ms → noted pool.new g (ms ++ self.now ∷ [])) }
        ensures err { OnErr result ((g : Graph) → is_pool pool.old g → noted pool.new g []) }
        ensures others { (m : Self) (g : Graph) (k : ℕ) (h : List Event) → stands m pool.old g k h → stands m pool.new g k h };

    /// Frees what no noted monitor needs, and the notes. The noted monitors stand for their histories
    /// still, and so does each monitor whose history isn't accepted.
    fn sweep(pool: &mut Self::Pool)
        requires { (g : Graph) × (ms : List Self) × is_pool pool.old g × noted pool.old g ms }
        ensures pool { (g : Graph) → is_pool pool.old g → is_pool pool.new g }
        ensures notes { (g : Graph) → is_pool pool.old g → noted pool.new g [] }
        ensures exact { (g : Graph) (ms : List Self) → is_pool pool.old g → noted pool.old g ms → needed pool.new g ms }
        ensures over { (m : Self) (g : Graph) (k : ℕ) (h : List Event) → (IsAccepted WHICH g k h → ⊥) → stands m pool.old g k h → stands m pool.new g k h }
        ensures kept { (g : Graph) (ms : List Self) (m : Self) (k : ℕ) (h : List Event) → noted pool.old g ms → Contains ms m → stands m pool.old g k h → stands m pool.new g k h };

    /// The number of keys that the pool holds; it takes no memory.
    fn held(pool: &Self::Pool) -> usize;
}
