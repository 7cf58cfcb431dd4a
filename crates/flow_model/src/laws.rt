ghost use Rattle.std.specs.Prelude.{ℕ, List};
ghost use Rattle.dm_base.specs.declared.event.Event.{Event};
ghost use Rattle.flow_model.specs.declared.which.Which.TheVariants.{Callgraph, Stack, Dyck};
ghost use Rattle.flow_model.specs.Graph.{Graph};
ghost use Rattle.flow_model.specs.Language.{Reads};
ghost use Rattle.flow_model.specs.Verdict.{IsAccepted};

/// The law that a word of the Dyck model is a word of the abstract-stack model, and that such a
/// word is one of the callgraph model; and so is each trace that a monitor accepts, whatever the
/// bounds are. It holds for every graph, valid or not. The function does nothing.
pub fn languages_are_nested()
    ensures dyck { (g : Graph) (t : List Event) → Reads Dyck g t → Reads Stack g t }
    ensures stack { (g : Graph) (t : List Event) → Reads Stack g t → Reads Callgraph g t }
    ensures dyck_accepted { (g : Graph) (t : List Event) (k n : ℕ) → IsAccepted Dyck g k t → IsAccepted Stack g n t }
    ensures stack_accepted { (g : Graph) (t : List Event) (k n : ℕ) → IsAccepted Stack g k t → IsAccepted Callgraph g n t }
{}
