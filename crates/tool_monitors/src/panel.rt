ghost use Rattle.std.specs.Prelude.{◌≡◌, ◌≤◌, ◌<◌, ◌^◌, ℕ, List, [], ◌∷◌, ◌++◌, length, IfOk, OnOk};
ghost use Rattle.dm_base.specs.declared.event.Event.{Event};
ghost use Rattle.dm_base.specs.declared.verdict.Status.{Status};
ghost use Rattle.flow_model.specs.Graph.{Graph};
ghost use Rattle.sys_table.specs.Table.{IsRecorded};
ghost use Rattle.trace_file.specs.Trace.{most};

use dm_base::{Event, OutOfMemory};
use flow_model::Model;
use std::alloc::Global;
use tool_frame::Finished;

/// Monitors that follow one trace together, an event at a time, and tell in the end what they found.
pub trait Panel: Sized + Drop {
    /// These events were followed, of this model and up to this bound.
    ghost judged: { Self → Graph → ℕ → List Event → Type 0 };

    /// What is told of these events, of this model and up to this bound: a status and a text.
    ghost tells: { Graph → ℕ → List Event → Status → List ℕ → Type 0 };

    /// Monitors that have followed no event.
    fn open(alloc: Global, model: &Model, bound: u32) -> Result<Self, OutOfMemory>
        requires { (1 ≤ bound) × (bound < 2 ^ 16) }
        ensures { IfOk result (λ p. judged p model.now bound []) };

    /// Follows the next event. Where memory is refused, the monitors are of no more use.
    fn take(&mut self, alloc: Global, model: &Model, event: &Event) -> Result<(), OutOfMemory>
        requires judged { (k : ℕ) × (h : List Event) × judged self.old model.now k h × (length h < most) }
        requires recorded { IsRecorded event.now }
        ensures { OnOk result ((k : ℕ) (h : List Event) → judged self.old model.now k h → judged self.new model.now k (h ++ event.now ∷ [])) };

    /// The text that tells what was found, and the status with which the tool ends.
    fn finish(self, alloc: Global) -> Result<Finished, OutOfMemory>
        requires { (g : Graph) × (k : ℕ) × (h : List Event) × judged self g k h }
        ensures { IfOk result (λ done. (g : Graph) (k : ℕ) (h : List Event) → judged self g k h → tells g k h done.status done.text.items) };
}
