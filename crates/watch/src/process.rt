ghost use Rattle.std.specs.Prelude.{◌≡◌, ◌+◌, ◌<◌, ◌≤◌, ◌^◌, ℕ, List, [], ◌∷◌, ◌++◌, length, IfOk, OnOk, OnErr};
ghost use Rattle.dm_base.specs.declared.event.Event.{Event as Event'};
ghost use Rattle.flow_model.specs.Graph.{Graph};
ghost use Rattle.flow_model.specs.Verdict.{IsStep};
ghost use Rattle.watch.specs.Keeping.{KeepsPool};
ghost use Rattle.watch.specs.Standing.{IsBound, IsAt};

use crate::past::Past;
use dm_base::{Event, OutOfMemory, Step};
use flow_model::{Model, Monitor};
use std::alloc::Global;
use trace_file::TracesVersion;

/// What stays the same while a watch goes on.
#[derive(Drop)]
pub struct Setting {
    pub alloc: Global,
    pub model: Model,
    pub bound: u32,
    pub version: TracesVersion,
}

/// A process: its monitor, and what is still at hand of its history.
#[derive(Drop)]
pub struct Process<M> {
    pub monitor: M,
    pub past: Past,
}

impl<M: Monitor> Process<M> {
    /// A process with the empty history.
    pub fn open(setting: &Setting, pool: &mut M::Pool) -> Result<Self, OutOfMemory>
        requires pool { M.is_pool pool.old setting.now.model }
        requires bound { IsBound setting.now.bound }
        ensures pool { KeepsPool M.Monitor setting.now.model pool.old pool.new }
        ensures history { IfOk result (λ p. IsAt M.Monitor setting.now.model setting.now.bound pool.new [] p) }
    {
        let monitor = M::open(pool, &setting.model, setting.bound)?;
        let past = Past::new(setting.alloc)?;
        Ok(Process { monitor, past })
    }

    /// A process with the same history.
    pub fn copy(&self, setting: &Setting, pool: &mut M::Pool) -> Result<Self, OutOfMemory>
        requires { (h : List Event') × M.is_pool pool.old setting.now.model × IsAt M.Monitor setting.now.model setting.now.bound pool.old h self.now }
        ensures pool { KeepsPool M.Monitor setting.now.model pool.old pool.new }
        ensures history { IfOk result (λ p. (h : List Event') → IsAt M.Monitor setting.now.model setting.now.bound pool.old h self.now → IsAt M.Monitor setting.now.model setting.now.bound pool.new h p) }
    {
        let monitor = self.monitor.copy(pool)?;
        let past = self.past.copy(setting.alloc)?;
        Ok(Process { monitor, past })
    }

    /// Takes the next event of the history. Where memory is refused the history stays.
    pub fn take(
        &mut self,
        setting: &Setting,
        pool: &mut M::Pool,
        event: &Event,
    ) -> Result<Step, OutOfMemory>
        requires pool { M.is_pool pool.old setting.now.model }
        requires history { (h : List Event') × IsAt M.Monitor setting.now.model setting.now.bound pool.old h self.old × (length h + 1 < 2 ^ 64) }
        ensures pool { KeepsPool M.Monitor setting.now.model pool.old pool.new }
        ensures history { OnOk result ((h : List Event') → IsAt M.Monitor setting.now.model setting.now.bound pool.old h self.old → IsAt M.Monitor setting.now.model setting.now.bound pool.new (h ++ event.now ∷ []) self.new) }
        ensures exact { IfOk result (λ step. (h : List Event') → IsAt M.Monitor setting.now.model setting.now.bound pool.old h self.old → IsStep M.WHICH setting.now.model setting.now.bound (h ++ event.now ∷ []) step) }
        ensures err { OnErr result ((h : List Event') → IsAt M.Monitor setting.now.model setting.now.bound pool.old h self.old → IsAt M.Monitor setting.now.model setting.now.bound pool.new h self.new) }
    {
        let noted = event.copy(setting.alloc)?;
        let step = self.monitor.feed(pool, &setting.model, event)?;
        self.past.note(step, noted);
        Ok(step)
    }
}
