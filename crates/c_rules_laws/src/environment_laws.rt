ghost use Rattle.c_rules_laws.specs.EnvironmentLaws.{PartsGiveTheSame};

/// A law on the rules: where names that are not reserved mean the same in a plain and in an instrumented unit, an expression, a
/// type name and a declaration that are fine in the plain unit are fine in the instrumented one, and give the same.
pub fn parts_give_the_same_in_both_units()
    ensures { PartsGiveTheSame }
{}
