ghost use Rattle.std.specs.Prelude.{◌≡◌, ◌≤◌, IfOk, IfErr, IfSome};
ghost use Rattle.dm_io.specs.Store.{IsMissing};
ghost use Rattle.tool_files.specs.Inputs.{RefusesModel};
ghost use Rattle.tool_frame.specs.Stop.{Stops};
ghost use Rattle.tool_reading.specs.Depth.{TellsDepth};

use crate::depth_text::depth_line;
use dm_base::Status;
use dm_io::Store;
use inline_model::depth;
use std::alloc::Global;
use tool_files::model_in;
use tool_frame::{Finished, Stop};

/// How many calls may be open at once in the model in a file: the length of the longest chains of sites of which each opens the next,
/// or a chain that ends in a cycle, where there is no greatest.
///
/// # Errors
///
/// `Model` where the file is no model, `Read` where a read failed or the file isn't there, and `OutOfMemory`.
pub fn depth_of_model<S: Store>(alloc: Global, store: &mut S, name: &str) -> Result<Finished, Stop>
    ensures made { IfOk result (λ done. (done.status ≡ Status.Done) × IfSome (S.files store.old) (λ told. TellsDepth told name.now done.text.items)) }
    ensures same { S.files store.new ≡ S.files store.old }
    ensures never_falls { S.faults store.old ≤ S.faults store.new }
    ensures stop { IfErr result (λ stop. Stops stop (RefusesModel (S.files store.old) name.now) (IsMissing (S.files store.old) name.now) (S.faults store.old) (S.faults store.new)) }
{
    let model = model_in(alloc, store, name)?;
    let found = depth(alloc, &model)?;
    let text = depth_line(alloc, &found)?;
    Ok(Finished {
        status: Status::Done,
        text,
    })
}
