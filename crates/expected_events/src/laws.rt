ghost use Rattle.std.specs.Prelude.{◌≡◌, ◌-◌, ◌↔◌, ℕ, ℤ, List, Option, Some, Contains, slice_get, take};
ghost use Rattle.dm_base.specs.declared.event.Arg.{Arg};
ghost use Rattle.dm_base.specs.declared.event.Event.{Event};
ghost use Rattle.dm_base.specs.declared.event.Event.TheVariants.{Sys};
ghost use Rattle.dm_base.specs.Fits.{Fits};
ghost use Rattle.flow_model.specs.declared.which.Which.{Which};
ghost use Rattle.flow_model.specs.Graph.{Graph};
ghost use Rattle.flow_model.specs.Rules.{IsValid};
ghost use Rattle.flow_model.specs.Verdict.{IsAccepted, IsRejectedAt};
ghost use Rattle.report.specs.Precision.{MayComeNext};
ghost use Rattle.expected_events.specs.declared.called.Called.{Called};
ghost use Rattle.expected_events.specs.Kept.{IsKeptNext};
ghost use Rattle.expected_events.specs.Next.{Next, IsNext};

/// The laws of what may come next after a trace in a valid model: a system call with a pattern stands
/// there exactly where some event of that name that fits the pattern and an edge of it is kept next; its
/// names are those that may come next, by which the precision of the model is counted; and where the
/// event of a system call is rejected, none stands there that the event fits. The function does nothing.
pub fn what_is_kept_next()
    ensures calls { (which : Which) (g : Graph) (bound : ℕ) (t : List Event) (n : Next) → IsValid g → IsAccepted which g bound t → IsNext which g t n → (c : Called) → Contains n.calls c ↔ IsKeptNext which g bound t c.name c.args }
    ensures names { (which : Which) (g : Graph) (t : List Event) (n : Next) → IsValid g → IsNext which g t n → (x : ℕ) → MayComeNext which g t x ↔ ((p : List (Option ℤ)) × Contains n.calls (record { name = x; args = p })) }
    ensures rejected { (which : Which) (g : Graph) (bound k name : ℕ) (arguments : List Arg) (outcome : ℤ) (t : List Event) (n : Next) → IsRejectedAt which g bound t k → slice_get t (k - 1) ≡ Some (Sys name arguments outcome) → IsNext which g (take (k - 1) t) n
        → (c : Called) → Contains n.calls c → Fits c.name c.args (Sys name arguments outcome) → ⊥ }
{}
