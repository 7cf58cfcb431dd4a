ghost use Rattle.c_rules_laws.specs.Programs.{TypedUnitsArePrograms};

/// A law on the rules: where constants are in range, strings no longer than a text, structs have a member and functions have
/// names, the program that a unit is typed as is well-typed, and has as many call expressions as stand before the end of the
/// unit.
pub fn a_typed_unit_is_a_program()
    ensures { TypedUnitsArePrograms }
{}
