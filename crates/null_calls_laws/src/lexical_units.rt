ghost use Rattle.null_calls_laws.specs.LexicalTexts.{InstrumentedUnitsAreLexical};

/// A law on instrumented units: with null calls round the marked calls of the program as which it is typed in the mode Plain, a unit whose
/// constants are in range and whose strings are no longer than a text is such a unit still (C99 6.4.4, 6.4.5).
pub fn instrumented_units_are_lexical()
    ensures { InstrumentedUnitsAreLexical }
{}
