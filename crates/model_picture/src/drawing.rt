ghost use Rattle.std.specs.Prelude.{◌≡◌, ◌≤◌, ◌<◌, ◌++◌, length, IfOk, IfErr, OnOk};
ghost use Rattle.model_file.specs.Refusal.{longest};
ghost use Rattle.model_picture.specs.Picture.{picture};

use crate::PictureError;
use crate::edges::{push_all_silent, push_all_sys, push_calls};
use crate::functions::push_subgraphs;
use dm_base::OutOfMemory;
use flow_model::Model;
use line_text::push_bytes;
use std::alloc::Global;

// The greatest length of a picture, in bytes.
const LONGEST: usize = 16_777_216;

/// The picture of the model: its functions as subgraphs, each with its nodes, and an arrow for each edge. It takes time that
/// is linear in the length of its text.
///
/// # Errors
///
/// `TooLarge` exactly where the text is longer than 16 MiB, and `OutOfMemory`.
pub fn picture(alloc: Global, model: &Model) -> Result<Vec<u8>, PictureError>
    ensures text { IfOk result (λ text. text.items ≡ picture model.now) }
    ensures short { IfOk result (λ text. length text.items ≤ longest) }
    ensures long { IfErr result (λ error. error ≡ PictureError.TooLarge → longest < length (picture model.now)) }
{
    let text = whole_picture(alloc, model)?;
    if text.len() > LONGEST {
        return Err(PictureError::TooLarge);
    }
    Ok(text)
}

// The picture of the model, however long.
fn whole_picture(alloc: Global, model: &Model) -> Result<Vec<u8>, OutOfMemory>
    ensures { IfOk result (λ text. text.items ≡ picture model.now) }
{
    let mut text = Vec::new(alloc);
    push_bytes(
        &mut text,
        b"digraph dyckmon {\nrankdir=LR\nnode [shape=circle,fontsize=9]\n",
    )?;
    push_subgraphs(alloc, &mut text, model)?;
    push_all_silent(alloc, &mut text, model.silent())?;
    push_all_sys(alloc, &mut text, model.sys())?;
    push_calls(alloc, &mut text, model.functions(), model.calls())?;
    push_bytes(&mut text, b"}\n")?;
    Ok(text)
}
