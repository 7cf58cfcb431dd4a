ghost use Rattle.null_calls_laws.specs.Texts.{InstrumentedTextsAreReadBack, InstrumentedUnitsAreUnits};

/// A law on units: with null calls round its marked calls and its temporaries declared, a typed unit that a text spells has the grammar's
/// forms, names and constants that there are, and nodes within the limit of instrumented units (C99 5.2.4.1, 6.4, 6.9); so it is, apart
/// from places, a unit that some tokens spell.
pub fn instrumented_units_are_units()
    ensures { InstrumentedUnitsAreUnits }
{}

/// A law on texts: the printed text of the instrumented unit of a typed unit that a text spells is read back as the same unit, apart from
/// places, in the mode of instrumented units, where it has at most 16 MiB.
pub fn instrumented_texts_are_read_back()
    ensures { InstrumentedTextsAreReadBack }
{}
