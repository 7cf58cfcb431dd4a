ghost use Rattle.std.specs.Prelude.{◌≡◌, ◌≤◌, IfOk, IfErr, IfSome};
ghost use Rattle.dm_io.specs.Store.{IsMissing};
ghost use Rattle.tool_frame.specs.Stop.{Stops};
ghost use Rattle.tool_models.specs.Upgrade.{Upgrades, RefusesToUpgrade, too_long};

use dm_base::{OutOfMemory, Status};
use dm_io::Store;
use model_file::{WriteModelError, write_model};
use std::alloc::Global;
use tool_files::model_in;
use tool_frame::{Finished, Stop};

const TOO_LONG: &[u8] = b"model refused G2\n";

// The line of a model whose text would be too long.
fn too_long_line(alloc: Global) -> Result<Vec<u8>, OutOfMemory>
    ensures { IfOk result (λ line. line.items ≡ too_long) }
{
    Ok(TOO_LONG.to_vec(alloc)?)
}

/// The text of the model in a file in the newest version.
pub fn upgrade<S: Store>(alloc: Global, store: &mut S, name: &str) -> Result<Finished, Stop>
    ensures made { IfOk result (λ done. (done.status ≡ Status.Done) × IfSome (S.files store.old) (λ told. Upgrades told name.now done.text.items)) }
    ensures same { S.files store.new ≡ S.files store.old }
    ensures never_falls { S.faults store.old ≤ S.faults store.new }
    ensures stop { IfErr result (λ stop. Stops stop (RefusesToUpgrade (S.files store.old) name.now) (IsMissing (S.files store.old) name.now) (S.faults store.old) (S.faults store.new)) }
{
    let model = model_in(alloc, store, name)?;
    match write_model(alloc, &model) {
        Ok(text) => Ok(Finished {
            status: Status::Done,
            text,
        }),
        Err(WriteModelError::TooLarge) => match too_long_line(alloc) {
            Ok(line) => Err(Stop::Model(line)),
            Err(_) => Err(Stop::OutOfMemory),
        },
        Err(WriteModelError::OutOfMemory) => Err(Stop::OutOfMemory),
    }
}
