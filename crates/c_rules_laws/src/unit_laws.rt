ghost use Rattle.c_rules_laws.specs.WellTyped.{ExpressionsAreWellTyped, StatementsAreWellTyped, ExpressionsHaveSites, StatementsHaveSites, UnitsAreWellTyped, SpelledUnitsAreLexical};

/// A law on the rules: where each name in scope is right in a program, the tree of an expression that the rules type has
/// the type that they give it, and is a well-typed value in the program.
pub fn expressions_are_well_typed()
    ensures { ExpressionsAreWellTyped }
{}

/// A law on the rules: where each name in scope is right in a program, a statement that the rules type is well-typed in a
/// function whose variables from the next numbers on are those that the statement declares.
pub fn statements_are_well_typed()
    ensures { StatementsAreWellTyped }
{}

/// A law on the rules: the sites in an expression or a statement are the numbers from that of the calls before it on, in the
/// order of their opening parentheses.
pub fn sites_are_in_order()
    ensures expressions { ExpressionsHaveSites }
    ensures statements { StatementsHaveSites }
{}

/// A law on the rules: the structs, the functions and the objects with names of a unit that is typed are those of a
/// well-typed program, where constants are in range, strings no longer than a text, structs have a member and functions have
/// names.
pub fn units_are_well_typed()
    ensures { UnitsAreWellTyped }
{}

/// A law on spelled units: their constants are in range, their strings are no longer than a text, their structs have a
/// member and their functions have names.
pub fn a_spelled_unit_is_lexical()
    ensures { SpelledUnitsAreLexical }
{}
