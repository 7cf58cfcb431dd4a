ghost use Rattle.null_calls_laws.specs.Functions.{DefinitionsGo};

/// A law on the rules: a definition of a function that is fine in the plain unit is fine in the instrumented one, with null calls round
/// its marked calls and its temporaries declared, gives the instrumented function, and keeps the limits of the mode (C99 5.2.4.1, 6.9.1;
/// Giffin, Jha and Miller 2004).
pub fn definitions_go()
    ensures { DefinitionsGo }
{}
