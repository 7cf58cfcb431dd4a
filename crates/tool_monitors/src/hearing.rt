ghost use Rattle.std.specs.Prelude.{◌≡◌, ◌≤◌, ◌<◌, ◌-◌, ◌^◌, ℕ, List, [], ◌∷◌, ◌++◌, length, IfOk, OnOk};
ghost use Rattle.dm_base.specs.declared.event.Event.{Event};
ghost use Rattle.flow_model.specs.declared.which.Which.{Which};
ghost use Rattle.flow_model.specs.Graph.{Graph};
ghost use Rattle.sys_table.specs.Table.{IsRecorded};
ghost use Rattle.tool_monitors.specs.Heard.{AreNextNames};
ghost use Rattle.tool_monitors.specs.Judged.{AreJudged};
ghost use Rattle.tool_monitors.specs.Refused.{HasComeTo};

use crate::judging::Judging;
use crate::panel::Panel;
use dm_base::{Event, OutOfMemory};
use flow_model::{Model, Monitor};
use std::alloc::Global;
use tool_frame::Finished;

/// What monitors say of the events that they heard.
#[derive(Drop)]
pub struct Heard {
    /// The lines of their verdicts, and the status of these.
    pub told: Finished,
    /// For each monitor, how many names of system calls may come next, 0 where it has refused the events.
    pub next: Vec<u32>,
}

/// Monitors that hear the events of a run while it goes on.
pub trait Listener: Sized + Drop {
    /// These events were heard, of this model and up to this bound of open calls.
    ghost heard: { Self → Graph → ℕ → List Event → Type 0 };

    /// The monitors, in the order of their lines.
    ghost monitors: { List Which };

    /// Monitors of the model that have heard no event, with a bound of open calls that only the Dyck monitor heeds.
    fn begin(alloc: Global, model: &Model, bound: u32) -> Result<Self, OutOfMemory>
        requires { (1 ≤ bound) × (bound < 2 ^ 16) }
        ensures { IfOk result (λ l. heard l model.now bound []) };

    /// Hears the next event. Where memory is refused, the monitors are of no more use.
    fn hear(&mut self, alloc: Global, model: &Model, event: &Event) -> Result<(), OutOfMemory>
        requires heard { (k : ℕ) × (h : List Event) × heard self.old model.now k h × (length h < 2 ^ 64 - 1) }
        requires recorded { IsRecorded event.now }
        ensures { OnOk result ((k : ℕ) (h : List Event) → heard self.old model.now k h → heard self.new model.now k (h ++ event.now ∷ [])) };

    /// What the monitors say of the events that they heard.
    fn conclude(self, alloc: Global, model: &Model) -> Result<Heard, OutOfMemory>
        requires { (k : ℕ) × (h : List Event) × heard self model.now k h }
        ensures judged { IfOk result (λ said. (k : ℕ) (h : List Event) → heard self model.now k h → AreJudged monitors model.now k h said.told.status said.told.text.items) }
        ensures next { IfOk result (λ said. (k : ℕ) (h : List Event) → heard self model.now k h → AreNextNames monitors model.now k h said.next.items) };
}

impl<M: Monitor> Listener for Judging<M> {
    ghost heard = { λ j g k h. M.is_pool j.pool g × M.noted j.pool g [] × HasComeTo (M.stands j.monitor j.pool g k h) M.WHICH g k h j.kept j.refused };

    ghost monitors = { M.WHICH ∷ [] };

    fn begin(alloc: Global, model: &Model, bound: u32) -> Result<Self, OutOfMemory> {
        let judging = Judging::<M>::open(alloc, model, bound)?;
        Ok(judging)
    }

    fn hear(&mut self, alloc: Global, model: &Model, event: &Event) -> Result<(), OutOfMemory> {
        self.follow(alloc, model, event)?;
        Ok(())
    }

    fn conclude(self, alloc: Global, model: &Model) -> Result<Heard, OutOfMemory> {
        let mut judging = self;
        let count = judging.next_names(alloc, model)?;
        let told = judging.finish(alloc)?;
        let mut next = Vec::new(alloc);
        next.push(count)?;
        Ok(Heard { told, next })
    }
}
