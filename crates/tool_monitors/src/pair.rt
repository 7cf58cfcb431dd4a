ghost use Rattle.std.specs.Prelude.{◌≡◌, ◌++◌, IfOk};
ghost use Rattle.tool_monitors.specs.Judged.{worse};
ghost use Rattle.tool_monitors.specs.Told.{AreBothTold};

use crate::hearing::{Heard, Listener};
use crate::panel::Panel;
use dm_base::{Event, OutOfMemory, Status};
use flow_model::Model;
use std::alloc::Global;
use tool_frame::Finished;

/// Two panels that follow the same trace; the text of the first stands before that of the second.
#[derive(Drop)]
pub struct Pair<A: Panel, B: Panel> {
    first: A,
    second: B,
}

/// The status of what both tell: Rejected goes before Bound, and that before Done.
pub fn worse(first: Status, second: Status) -> Status
    ensures { result ≡ worse first second }
{
    match (first, second) {
        (Status::Rejected, _) => Status::Rejected,
        (Status::Bound, Status::Rejected) => Status::Rejected,
        (Status::Bound, _) => Status::Bound,
        (_, second) => second,
    }
}

// What two panels have told, one after the other.
fn joined(first: Finished, second: Finished) -> Result<Finished, OutOfMemory>
    ensures status { IfOk result (λ done. done.status ≡ worse first.status second.status) }
    ensures text { IfOk result (λ done. done.text.items ≡ first.text.items ++ second.text.items) }
{
    let mut text = first.text;
    text.extend_from_slice(&second.text)?;
    Ok(Finished {
        status: worse(first.status, second.status),
        text,
    })
}

impl<A: Panel, B: Panel> Panel for Pair<A, B> {
    ghost judged = { λ p g k h. A.judged p.first g k h × B.judged p.second g k h };

    ghost tells = { λ g k h status text. AreBothTold (A.tells g k h) (B.tells g k h) status text };

    fn open(alloc: Global, model: &Model, bound: u32) -> Result<Self, OutOfMemory> {
        Ok(Pair {
            first: A::open(alloc, model, bound)?,
            second: B::open(alloc, model, bound)?,
        })
    }

    fn take(&mut self, alloc: Global, model: &Model, event: &Event) -> Result<(), OutOfMemory> {
        self.first.take(alloc, model, event)?;
        self.second.take(alloc, model, event)?;
        Ok(())
    }

    fn finish(self, alloc: Global) -> Result<Finished, OutOfMemory> {
        let Pair { first, second } = self;
        let before = first.finish(alloc)?;
        let after = second.finish(alloc)?;
        let both = joined(before, after)?;
        Ok(both)
    }
}

impl<A: Panel + Listener, B: Panel + Listener> Listener for Pair<A, B> {
    ghost heard = { λ p g k h. A.heard p.first g k h × B.heard p.second g k h };

    ghost monitors = { A.monitors ++ B.monitors };

    fn begin(alloc: Global, model: &Model, bound: u32) -> Result<Self, OutOfMemory> {
        Ok(Pair {
            first: A::begin(alloc, model, bound)?,
            second: B::begin(alloc, model, bound)?,
        })
    }

    fn hear(&mut self, alloc: Global, model: &Model, event: &Event) -> Result<(), OutOfMemory> {
        self.first.hear(alloc, model, event)?;
        self.second.hear(alloc, model, event)?;
        Ok(())
    }

    fn conclude(self, alloc: Global, model: &Model) -> Result<Heard, OutOfMemory> {
        let Pair { first, second } = self;
        let before = first.conclude(alloc, model)?;
        let after = second.conclude(alloc, model)?;
        let told = joined(before.told, after.told)?;
        let mut next = before.next;
        next.extend_from_slice(&after.next)?;
        Ok(Heard { told, next })
    }
}
