ghost use Rattle.std.specs.Prelude.{◌≡◌, ◌↔◌, List, IfOk, IfErr};
ghost use Rattle.dm_base.specs.declared.event.Event.{Event};
ghost use Rattle.flow_model.specs.declared.which.Which.TheVariants.{Callgraph, Stack};
ghost use Rattle.flow_model.specs.Graph.{Graph};
ghost use Rattle.flow_model.specs.Language.{Reads};
ghost use Rattle.inline_model.specs.Cause.{HasCause};
ghost use Rattle.tool_reading.specs.Inline.{HasInlined, IsInlinedText};
ghost use Rattle.tool_reading.specs.InlineStops.{IsStopWith, StopsInlining};

use dm_base::OutOfMemory;
use flow_model::Model;
use inline_model::{InlineError, inline};
use model_file::{WriteModelError, write_model};
use std::alloc::Global;
use tool_frame::{Stop, fixed_line};

// The stop with this line.
fn stop_with(alloc: Global, text: &[u8]) -> Stop
    ensures { IsStopWith result text.now }
{
    match fixed_line(alloc, text) {
        Ok(line) => Stop::Model(line),
        Err(OutOfMemory) => Stop::OutOfMemory,
    }
}

// The stop of a model that is not inlined.
fn refusal_of(alloc: Global, error: InlineError) -> Stop
    ensures { (g : Graph) → HasCause g error → StopsInlining result g }
{
    match error {
        InlineError::OutOfMemory => Stop::OutOfMemory,
        InlineError::Recursive => stop_with(alloc, b"model refused I1\n"),
        InlineError::TooManyNodes => stop_with(alloc, b"model refused I2\n"),
    }
}

// The inlined model.
fn inlined_of(alloc: Global, model: &Model) -> Result<Model, Stop>
    ensures has { IfOk result (HasInlined model.now) }
    ensures stack { IfOk result (λ m. (t : List Event) → Reads Stack m t ↔ Reads Stack model.now t) }
    ensures callgraph { IfOk result (λ m. (t : List Event) → Reads Callgraph m t ↔ Reads Stack model.now t) }
    ensures stop { IfErr result (λ stop. StopsInlining stop model.now) }
{
    match inline(alloc, model) {
        Ok(inlined) => Ok(inlined),
        Err(error) => Err(refusal_of(alloc, error)),
    }
}

/// The text of the inlined model.
pub fn inlined_text(alloc: Global, model: &Model) -> Result<Vec<u8>, Stop>
    ensures text { IfOk result (λ text. IsInlinedText model.now text.items) }
    ensures stop { IfErr result (λ stop. StopsInlining stop model.now) }
{
    let inlined = match inlined_of(alloc, model) {
        Ok(inlined) => inlined,
        Err(stop) => return Err(stop),
    };
    match write_model(alloc, &inlined) {
        Ok(text) => Ok(text),
        Err(WriteModelError::TooLarge) => Err(stop_with(alloc, b"model refused G2\n")),
        Err(WriteModelError::OutOfMemory) => Err(Stop::OutOfMemory),
    }
}
