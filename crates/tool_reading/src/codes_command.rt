ghost use Rattle.std.specs.Prelude.{◌≡◌, IfOk};
ghost use Rattle.code_reasons.specs.Reasons.{codes_text};

use code_reasons::codes_text;
use dm_base::{OutOfMemory, Status};
use std::alloc::Global;
use tool_frame::Finished;

/// The codes with their reasons, one line each. The error is that memory was refused.
pub fn tell_codes(alloc: Global) -> Result<Finished, OutOfMemory>
    ensures status { IfOk result (λ done. done.status ≡ Status.Done) }
    ensures text { IfOk result (λ done. done.text.items ≡ codes_text) }
{
    let text = codes_text(alloc)?;
    Ok(Finished {
        status: Status::Done,
        text,
    })
}
