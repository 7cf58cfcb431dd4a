ghost use Rattle.std.specs.Prelude.{◌≡◌, ◌≤◌, IfOk, IfErr, IfSome};
ghost use Rattle.dm_io.specs.Store.{IsMissing};
ghost use Rattle.tool_frame.specs.Stop.{Stops};
ghost use Rattle.tool_texts.specs.Modelled.{Models, RefusesToModel};

use dm_base::{Mode, Status};
use dm_io::Store;
use std::alloc::Global;
use tool_frame::{Finished, Stop};
use tool_steps::{graph_text, source_in};

/// The text of the model of the C text in a file. A model of more than 200,000 nodes, and a text of more than 16 MiB, are refused.
pub fn model_of_source<S: Store>(alloc: Global, store: &mut S, name: &str) -> Result<Finished, Stop>
    ensures made { IfOk result (λ done. (done.status ≡ Status.Done) × IfSome (S.files store.old) (λ told. Models told name.now done.text.items)) }
    ensures same { S.files store.new ≡ S.files store.old }
    ensures never_falls { S.faults store.old ≤ S.faults store.new }
    ensures stop { IfErr result (λ stop. Stops stop (RefusesToModel (S.files store.old) name.now) (IsMissing (S.files store.old) name.now) (S.faults store.old) (S.faults store.new)) }
{
    let source = source_in(alloc, store, name, Mode::Plain)?;
    match graph_text(alloc, &source.program) {
        Ok(text) => Ok(Finished {
            status: Status::Done,
            text,
        }),
        Err(stop) => Err(stop),
    }
}
