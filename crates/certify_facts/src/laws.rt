ghost use Rattle.std.specs.Prelude.{ℕ, List, All};
ghost use Rattle.dm_base.specs.declared.event.Event.{Event};
ghost use Rattle.flow_model.specs.Graph.{Graph};
ghost use Rattle.flow_model.specs.Rules.{IsValid};
ghost use Rattle.flow_model.specs.Verdict.{IsVerdict};
ghost use Rattle.certify_facts.specs.Confirms.{Confirms, which_of};
ghost use Rattle.certify_facts.specs.Form.{IsFormed};
ghost use Rattle.certify_facts.specs.Told.{Told};

/// The law that what a certificate claims is the verdict, where each reason holds and so does the
/// claim. The function does nothing.
pub fn confirmed_verdicts_hold()
    ensures { (g : Graph) (t : List Event) (c : Told) (bound : ℕ) → IsValid g → All (IsFormed c.judge) c.lines → Confirms g t c → IsVerdict (which_of c.judge) g bound t c.verdict }
{}
