ghost use Rattle.std.specs.Prelude.{◌≡◌, ◌≤◌, ◌<◌, IfOk, IfErr, IfSome};
ghost use Rattle.dm_io.specs.Store.{file_at};
ghost use Rattle.model_file.specs.Refusal.{IsModel};
ghost use Rattle.tool_files.specs.Reading.{IsStopOfModel, StopsModel};

use crate::refusals::model_line;
use dm_io::{Store, read_whole};
use flow_model::Model;
use model_file::{ModelError, read_model};
use std::alloc::Global;
use tool_frame::Stop;

// One byte more than a model may have.
const MOST: usize = 16_777_217;

/// The model in a file.
pub fn model_in<S: Store>(alloc: Global, store: &mut S, name: &str) -> Result<Model, Stop>
    ensures model { IfOk result (λ m. IfSome (S.files store.old) (λ told. IsModel (file_at told name.now) m)) }
    ensures stop { IfErr result (λ stop. StopsModel stop (S.files store.old) name.now (S.faults store.old) (S.faults store.new)) }
    ensures same { S.files store.new ≡ S.files store.old }
    ensures never_falls { S.faults store.old ≤ S.faults store.new }
{
    let text = read_whole(alloc, store, name, MOST)?;
    match read_model(alloc, &text) {
        Ok(model) => Ok(model),
        Err(error) => Err(refused_with(alloc, error)),
    }
}

// The stop of a refused model.
fn refused_with(alloc: Global, error: ModelError) -> Stop
    ensures { IsStopOfModel result error }
{
    if error == ModelError::OutOfMemory {
        return Stop::OutOfMemory;
    }
    match model_line(alloc, error) {
        Ok(line) => Stop::Model(line),
        Err(_) => Stop::OutOfMemory,
    }
}
