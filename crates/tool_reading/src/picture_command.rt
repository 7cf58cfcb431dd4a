ghost use Rattle.std.specs.Prelude.{◌≡◌, ◌≤◌, IfOk, IfErr, IfSome};
ghost use Rattle.dm_io.specs.Store.{IsMissing};
ghost use Rattle.tool_frame.specs.Stop.{Stops};
ghost use Rattle.tool_reading.specs.Picture.{Pictures, RefusesToPicture, too_long};

use dm_base::{OutOfMemory, Status};
use dm_io::Store;
use model_picture::{PictureError, picture};
use std::alloc::Global;
use tool_files::model_in;
use tool_frame::{Finished, Stop};

const TOO_LONG: &[u8] = b"model refused G2\n";

// The line of a model whose picture would be too long.
fn too_long_line(alloc: Global) -> Result<Vec<u8>, OutOfMemory>
    ensures { IfOk result (λ line. line.items ≡ too_long) }
{
    Ok(TOO_LONG.to_vec(alloc)?)
}

/// The picture of the model in a file, in the DOT language of Graphviz.
///
/// # Errors
///
/// `Model` where the file is no model, or the picture is longer than 16 MiB; `Read` where a read failed or the file isn't there; and
/// `OutOfMemory`.
pub fn picture_of_model<S: Store>(
    alloc: Global,
    store: &mut S,
    name: &str,
) -> Result<Finished, Stop>
    ensures made { IfOk result (λ done. (done.status ≡ Status.Done) × IfSome (S.files store.old) (λ told. Pictures told name.now done.text.items)) }
    ensures same { S.files store.new ≡ S.files store.old }
    ensures never_falls { S.faults store.old ≤ S.faults store.new }
    ensures stop { IfErr result (λ stop. Stops stop (RefusesToPicture (S.files store.old) name.now) (IsMissing (S.files store.old) name.now) (S.faults store.old) (S.faults store.new)) }
{
    let model = model_in(alloc, store, name)?;
    match picture(alloc, &model) {
        Ok(text) => Ok(Finished {
            status: Status::Done,
            text,
        }),
        Err(PictureError::TooLarge) => match too_long_line(alloc) {
            Ok(line) => Err(Stop::Model(line)),
            Err(_) => Err(Stop::OutOfMemory),
        },
        Err(PictureError::OutOfMemory) => Err(Stop::OutOfMemory),
    }
}
