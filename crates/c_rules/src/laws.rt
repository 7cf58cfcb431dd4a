ghost use Rattle.std.specs.Prelude.{◌≡◌, ◌⊎◌, ℕ};
ghost use Rattle.c_tree.specs.Mode.{Mode};
ghost use Rattle.c_tree.specs.Mode.TheVariants.{Plain, Instrumented};
ghost use Rattle.c_syntax.specs.Tree.{Items};
ghost use Rattle.c_tree.specs.Tree.{Program};
ghost use Rattle.c_rules.specs.Units.{IsTyped, IsViolated};
ghost use Rattle.c_rules.specs.NullCalls.{CallsNoNullCall};

/// A law on the rules: each unit is typed as some program, or violates some rule at some place.
pub fn a_unit_is_typed_or_violates_a_rule()
    ensures { (u : Items) (m : Mode) → ((p : Program) × IsTyped u m p) ⊎ ((code at : ℕ) × IsViolated u m code at) }
{}

/// A law on the rules: a unit that is typed violates no rule.
pub fn a_typed_unit_violates_no_rule()
    ensures { (u : Items) (m : Mode) (p : Program) (code at : ℕ) → IsTyped u m p → IsViolated u m code at → ⊥ }
{}

/// A law on the rules: a unit is typed as one program at most.
pub fn a_unit_types_one_program()
    ensures { (u : Items) (m : Mode) (p q : Program) → IsTyped u m p → IsTyped u m q → p ≡ q }
{}

/// A law on the rules: a unit that is typed in the mode Plain is typed in the mode Instrumented, as the same
/// program.
pub fn a_plain_unit_is_typed_alike_in_both_modes()
    ensures { (u : Items) (p : Program) → IsTyped u Plain p → IsTyped u Instrumented p }
{}

/// A law on the rules: a program that is typed in the mode Plain calls neither null call.
pub fn a_plain_program_calls_no_null_call()
    ensures { (u : Items) (p : Program) → IsTyped u Plain p → CallsNoNullCall p }
{}
