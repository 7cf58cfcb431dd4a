ghost use Rattle.null_calls_laws.specs.AddedParts.{NullCallsAreMade, TemporariesAreRead, TemporariesAreSet};
ghost use Rattle.null_calls_laws.specs.KeptArguments.{KeptArgumentsGo};
ghost use Rattle.null_calls_laws.specs.KeptValues.{KeptValuesAreGiven};
ghost use Rattle.null_calls_laws.specs.InstrumentedCalls.{AllCallsGo, AllExpressionsGo};
ghost use Rattle.null_calls_laws.specs.MostCalls.{CallsAreWithin};
ghost use Rattle.null_calls_laws.specs.NullTypes.{NullsHaveTheirTypes};
ghost use Rattle.null_calls_laws.specs.OwnTypes.{ValuesFitTheirTypes};
ghost use Rattle.null_calls_laws.specs.PlainCalls.{UnmarkedCallsGo};

/// A law on the rules: a call of an instrumented unit that stands between no null calls gives what the plain one gives, with the
/// instrumented tree, where its designator and its arguments do.
pub fn unmarked_calls_go()
    ensures { UnmarkedCallsGo }
{}

/// A law on the rules: the name of a temporary of scalar type gives the value of the variable with its number.
pub fn temporaries_are_read()
    ensures { TemporariesAreRead }
{}

/// A law on the rules: what keeps a value in a temporary assigns it to the variable with its number, where it fits.
pub fn temporaries_are_set()
    ensures { TemporariesAreSet }
{}

/// A law on the rules: a null call is a call of its function with the constant of its site.
pub fn null_calls_are_made()
    ensures { NullCallsAreMade }
{}

/// A law on the rules: a value of scalar type that is not constant may be assigned to an object of its type, and is converted to
/// itself.
pub fn values_fit_their_types()
    ensures { ValuesFitTheirTypes }
{}

/// A law on the rules: the calls of an expression that is fine are within the limit of the mode, where those before it are.
pub fn calls_are_within()
    ensures { CallsAreWithin }
{}

/// A law on the rules: a value that is a null pointer constant has an integer type, or is a `void *`; so a pointer to a function
/// is none.
pub fn nulls_have_their_types()
    ensures { NullsHaveTheirTypes }
{}

/// A law on the rules: the arguments of a marked call, where they go, are kept in temporaries from the left to the right, before
/// the other members of the comma expression.
pub fn kept_arguments_go()
    ensures { KeptArgumentsGo }
{}

/// A law on the rules: the temporaries of a marked call's arguments fit the parameters, and are passed as they are.
pub fn kept_values_are_given()
    ensures { KeptValuesAreGiven }
{}

/// A law on the rules: a call of an instrumented unit, marked or not, wanted or not, gives what the plain one gives, with the
/// instrumented tree, where its designator and its arguments do: a marked one as the comma expression in which it stands between its
/// null calls (C99 6.5.2.2, 6.5.17; Giffin, Jha and Miller 2004).
pub fn calls_go()
    ensures { AllCallsGo }
{}

/// A law on the rules: every expression of an instrumented unit gives what the plain one gives, with the instrumented tree, and has
/// the temporaries that the instrumented program has, where each call stands at its site.
pub fn expressions_go()
    ensures { AllExpressionsGo }
{}
