ghost use Rattle.null_calls_laws.specs.SitesLaw.{SitesChangeNothing, InstrumentedRunsAreOne};

/// What a program does doesn't depend on the numbers of its sites: it does the same with all of them 0. So any program
/// that is another one with null calls round its marked calls, whatever its sites are, does what the program of the
/// definition does. The function does nothing.
pub fn sites_change_nothing()
    ensures sites { SitesChangeNothing }
    ensures instrumented_unit { InstrumentedRunsAreOne }
{}
