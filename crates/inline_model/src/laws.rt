ghost use Rattle.std.specs.Prelude.{◌≡◌, ◌↔◌, ◌+◌, ℕ, List, [], length, reverse};
ghost use Rattle.dm_base.specs.declared.event.Event.{Event};
ghost use Rattle.dm_base.specs.Trace.{opened, closed};
ghost use Rattle.flow_model.specs.declared.which.Which.TheVariants.{Callgraph, Stack, Dyck};
ghost use Rattle.flow_model.specs.Graph.{Graph, HasFunction};
ghost use Rattle.flow_model.specs.Language.{DyckRun, Reads};
ghost use Rattle.flow_model.specs.Rules.{IsValid};
ghost use Rattle.inline_model.specs.Chains.{IsChain, IsGreatest, HasNoGreatest, IsRecursion};
ghost use Rattle.inline_model.specs.Depths.{IsGreatestDepth, HasNoGreatestDepth};
ghost use Rattle.inline_model.specs.Inlined.{IsInlined};

/// The law that a chain with a cycle at its end can be made as long as one likes, in any graph. The function does nothing.
pub fn cycles_go_round()
    ensures { (g : Graph) (first cycle : List ℕ) → IsRecursion g first cycle → HasNoGreatest g }
{}

/// The law that a valid model and its inlined model have the same words of the abstract-stack model, and that these are
/// the words of the inlined model's callgraph model; and that there is one inlined model at most. The function does nothing.
pub fn inlining_keeps_words()
    ensures stack { (g m : Graph) → IsValid g → IsInlined g m → (t : List Event) → Reads Stack m t ↔ Reads Stack g t }
    ensures callgraph { (g m : Graph) → IsValid g → IsInlined g m → (t : List Event) → Reads Callgraph m t ↔ Reads Stack g t }
    ensures one { (g m n : Graph) → IsInlined g m → IsInlined g n → m ≡ n }
{}

/// The law that chains of sites are what may be open in words of the Dyck model, for every valid model. Each chain is
/// the sites that some word leaves open, at least in number, and the open sites of each word are a chain, from the oldest
/// on. So the greatest length of a chain is the greatest depth of a word; and where chains have no greatest length, for
/// each number some word is deeper. Not both stand of one model. The function does nothing.
pub fn chains_are_open_sites()
    ensures excluded { (g : Graph) (n : ℕ) → IsGreatest g n → HasNoGreatest g → ⊥ }
    ensures words { (g : Graph) → IsValid g → (sites : List ℕ) → IsChain g sites → (t : List Event) × Reads Dyck g t × (opened t ≡ closed t + length sites) }
    ensures open_sites { (g : Graph) → IsValid g → (entry exit a : ℕ) (z : List ℕ) (t : List Event) → HasFunction g g.start entry exit → DyckRun g entry [] t a z → IsChain g (reverse z) }
    ensures greatest { (g : Graph) → IsValid g → (n : ℕ) → IsGreatest g n → IsGreatestDepth g n }
    ensures unbounded { (g : Graph) → IsValid g → HasNoGreatest g → HasNoGreatestDepth g }
{}
