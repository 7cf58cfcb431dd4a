ghost use Rattle.std.specs.Prelude.{◌≡◌, ◌≤◌, IfOk, IfErr, IfSome};
ghost use Rattle.dm_io.specs.Store.{IsMissing};
ghost use Rattle.tool_frame.specs.Stop.{Stops};
ghost use Rattle.tool_reading.specs.Inline.{Inlines, RefusesToInline};

use crate::inline_text::inlined_text;
use dm_base::Status;
use dm_io::Store;
use std::alloc::Global;
use tool_files::model_in;
use tool_frame::{Finished, Stop};

/// The text of the inlined model of the model in a file, in the newest version.
///
/// # Errors
///
/// `Model` where the file is no model, and where its calls recurse, or its inlined model has more than 200,000 nodes or a
/// text of more than 16 MiB; `Read` where a read failed or the file isn't there, and `OutOfMemory`.
pub fn inlined_model<S: Store>(alloc: Global, store: &mut S, name: &str) -> Result<Finished, Stop>
    ensures made { IfOk result (λ done. (done.status ≡ Status.Done) × IfSome (S.files store.old) (λ told. Inlines told name.now done.text.items)) }
    ensures same { S.files store.new ≡ S.files store.old }
    ensures never_falls { S.faults store.old ≤ S.faults store.new }
    ensures stop { IfErr result (λ stop. Stops stop (RefusesToInline (S.files store.old) name.now) (IsMissing (S.files store.old) name.now) (S.faults store.old) (S.faults store.new)) }
{
    let model = model_in(alloc, store, name)?;
    match inlined_text(alloc, &model) {
        Ok(text) => Ok(Finished {
            status: Status::Done,
            text,
        }),
        Err(stop) => Err(stop),
    }
}
