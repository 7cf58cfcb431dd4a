ghost use Rattle.std.specs.Prelude.{◌≡◌, ◌↔◌, ◌≤◌, ℕ, IsTrue, IfOk, IfErr};
ghost use Rattle.flow_model.specs.Built.{graph_of_records};
ghost use Rattle.flow_model.specs.Graph.{Graph};
ghost use Rattle.flow_model.specs.Rules.{IsInOrder, HasRightPatterns, IsValid};
ghost use Rattle.model_file.specs.Refusal.{IsModel, IsModelRefusal, HasOtherModelVersion};
ghost use Rattle.model_file.specs.Writing.{IsBroken};

use crate::ModelError;
use crate::draft::{Draft, read_draft};
use flow_model::{FinishError, Model};
use line_text::{first_line, version_of};
use std::alloc::Global;

// The greatest length of a model's text, in bytes.
const LONGEST: usize = 16_777_216;

/// The model whose text this is, in version 1 or 2; see `ModelError` for why a text is refused.
pub fn read_model(alloc: Global, text: &[u8]) -> Result<Model, ModelError>
    ensures read { IfOk result (λ m. IsModel text.now m) }
    ensures refused { IfErr result (λ error. IsModelRefusal error text.now) }
    ensures rules { IfErr result (λ error. (k : ℕ) → error ≡ ModelError.Invalid k → k ≤ 5) }
    ensures complete { (g : Graph) → IsModel text.now g → IfErr result (λ error. error ≡ ModelError.OutOfMemory) }
    ensures same { (g : Graph) → IsModel text.now g → IfOk result (λ m. m ≡ g) }
{
    if text.len() > LONGEST {
        return Err(ModelError::TooLarge);
    }
    if has_other_version(text) {
        return Err(ModelError::Version);
    }
    let draft = read_draft(alloc, text)?;
    model_of(draft)
}

// Whether the first line names another version than 1 and 2.
fn has_other_version(text: &[u8]) -> bool
    ensures { IsTrue result ↔ HasOtherModelVersion text.now }
{
    let (line, _) = first_line(text);
    match version_of(line, b"dyckmon-model ") {
        Some(number) => number != 1 && number != 2,
        None => false,
    }
}

// The model of the draft, whose edges are in order.
fn model_of(draft: Draft) -> Result<Model, ModelError>
    requires order { IsInOrder (graph_of_records draft.builder draft.nodes draft.start) }
    requires patterns { HasRightPatterns (graph_of_records draft.builder draft.nodes draft.start) }
    ensures same { IfOk result (λ m. m ≡ graph_of_records draft.builder draft.nodes draft.start) }
    ensures valid { IfOk result (λ m. IsValid m) }
    ensures broken { IfErr result (λ error. IsBroken (graph_of_records draft.builder draft.nodes draft.start) error) }
{
    let Draft {
        builder,
        nodes,
        start,
    } = draft;
    match builder.finish(nodes, start) {
        Ok(model) => Ok(model),
        Err(FinishError::OutOfMemory) => Err(ModelError::OutOfMemory),
        Err(FinishError::Invalid(rule)) => Err(ModelError::Invalid(rule)),
    }
}
