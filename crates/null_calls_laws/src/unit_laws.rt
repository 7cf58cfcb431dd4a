ghost use Rattle.null_calls_laws.specs.Units.{InstrumentedTextsRunMarked, InstrumentedUnitsAreTyped};

/// A law on the rules: the unit with null calls round the marked calls of the program as which the plain unit is typed is typed in the
/// mode of instrumented units, as a program that is the plain one with null calls round its marked calls (C99 5.2.4.1, 6.9; Giffin, Jha
/// and Miller 2004).
pub fn instrumented_units_are_typed()
    ensures { InstrumentedUnitsAreTyped }
{}

/// The same of each unit that a text spells; and the instrumented program does what the plain one does with null calls at its marked
/// sites.
pub fn instrumented_texts_run_marked()
    ensures { InstrumentedTextsRunMarked }
{}
