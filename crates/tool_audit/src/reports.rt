ghost use Rattle.std.specs.Prelude.{ℕ, List, IfOk};
ghost use Rattle.dm_base.specs.declared.event.Event.{Event};
ghost use Rattle.flow_model.specs.Graph.{Graph};
ghost use Rattle.tool_audit.specs.Heard.{AreHeard, HaveHeard};

use dm_base::OutOfMemory;
use report::next_line;
use std::alloc::Global;
use tool_frame::Finished;
use tool_monitors::Heard;

/// The verdict lines of the three monitors, with the status of the three, and then the line of the calls that may come next.
pub fn report(alloc: Global, heard: Heard) -> Result<Finished, OutOfMemory>
    requires { (g : Graph) × (bound : ℕ) × (events : List Event) × HaveHeard g bound events heard }
    ensures { IfOk result (λ done. (g : Graph) (bound : ℕ) (events : List Event) → HaveHeard g bound events heard → AreHeard g bound events done.status done.text.items) }
{
    let Heard { told, next } = heard;
    let line = next_line(alloc, next[0], next[1], next[2])?;
    let mut text = told.text;
    text.extend_from_slice(&line)?;
    Ok(Finished {
        status: told.status,
        text,
    })
}
