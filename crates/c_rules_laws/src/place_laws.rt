ghost use Rattle.c_rules_laws.specs.PlaceLaws.{UnitsAreTypedAlike};

/// A law on units: one that is typed as a program, and differs from another one in the places of its nodes alone, and
/// the other one are typed alike.
pub fn units_are_typed_alike_apart_from_places()
    ensures { UnitsAreTypedAlike }
{}
