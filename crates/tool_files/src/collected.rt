ghost use Rattle.std.specs.Prelude.{◌≡◌};
ghost use Rattle.dm_base.specs.declared.event.Event.{Event};
ghost use Rattle.dm_base.specs.declared.verdict.Status.{Status};

use dm_base::{Event, OutOfMemory, Status};
use flow_model::Model;
use std::alloc::Global;
use tool_frame::Finished;
use tool_monitors::Panel;

/// A panel that gathers the events of a trace, and tells nothing of them.
#[derive(Drop)]
pub struct Collected {
    events: Vec<Event>,
}

impl Collected {
    /// The events, in their order.
    pub fn into_events(self) -> Vec<Event>
        ensures { result.items ≡ self.events.items }
    {
        self.events
    }
}

impl Panel for Collected {
    ghost judged = { λ c g k h. c.events.items ≡ h };

    ghost tells = { λ g k h status text. Unit {0} };

    fn open(alloc: Global, _model: &Model, _bound: u32) -> Result<Self, OutOfMemory> {
        Ok(Collected {
            events: Vec::new(alloc),
        })
    }

    fn take(&mut self, alloc: Global, _model: &Model, event: &Event) -> Result<(), OutOfMemory> {
        let copied = event.copy(alloc)?;
        self.events.push(copied)?;
        Ok(())
    }

    fn finish(self, alloc: Global) -> Result<Finished, OutOfMemory> {
        Ok(Finished {
            status: Status::Done,
            text: Vec::new(alloc),
        })
    }
}
