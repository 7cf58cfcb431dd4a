ghost use Rattle.std.specs.Prelude.{◌≡◌, ℕ, OnOk, IfOk, IfErr};
ghost use Rattle.flow_model.specs.Verdict.{IsVerdict};
ghost use Rattle.certify_facts.specs.Confirms.{Confirms, which_of};
ghost use Rattle.certify.specs.Refusals.{IsRefusal};

use crate::ConfirmError;
use crate::claim::is_claim;
use crate::reasons::first_failing;
use certify_facts::Certificate;
use dm_base::{Event, Verdict};
use flow_model::Model;
use std::alloc::Global;

/// Confirms what a certificate claims of a trace in a model, and gives its verdict, which is then the
/// verdict on the trace, whoever made the certificate. Each reason is looked at once, and for a rejected
/// trace also each step from each fact.
pub fn confirm(
    alloc: Global,
    model: &Model,
    trace: &[Event],
    certificate: &Certificate,
) -> Result<Verdict, ConfirmError>
    ensures confirms { OnOk result (Confirms model.now trace.now certificate.now) }
    ensures claimed { IfOk result (λ v. v ≡ certificate.now.verdict) }
    ensures verdict { IfOk result (λ v. (bound : ℕ) → IsVerdict (which_of certificate.now.judge) model.now bound trace.now v) }

    // The reason that fails is the first such, and the claim is looked at only where all reasons hold.
    ensures cause { IfErr result (IsRefusal model.now trace.now certificate.now) }
{
    // It tells that the model is valid.
    let _nodes = model.nodes();
    let lines = certificate.lines();
    match first_failing(model, trace, lines) {
        Some(place) => Err(ConfirmError::Line(place as u64 + 4)),
        None => {
            if is_claim(
                alloc,
                model,
                trace,
                certificate.judge(),
                certificate.verdict(),
                lines,
            )? {
                Ok(certificate.verdict())
            } else {
                Err(ConfirmError::Claim)
            }
        }
    }
}
