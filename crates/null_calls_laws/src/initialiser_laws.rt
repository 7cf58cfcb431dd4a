ghost use Rattle.null_calls_laws.specs.Initialisers.{InitialisersGo};
ghost use Rattle.null_calls_laws.specs.Standing.{BlocksStandBeside, TemporariesStay};

/// A law on scopes: a block's scope in a body of the instrumented unit stands beside that of the plain one where the scopes round
/// them do (C99 6.2.1 paragraph 4).
pub fn blocks_stand_beside()
    ensures { BlocksStandBeside }
{}

/// A law on scopes: the temporaries of an expression are the variables that they are elsewhere, where reserved names mean the same.
pub fn temporaries_stay()
    ensures { TemporariesStay }
{}

/// A law on the rules: an initialiser of a variable in an instrumented unit gives what the plain one gives, with the instrumented trees
/// in its cells, and has the temporaries that these have (C99 6.7.8). Behind it stand the same strings, and at most three times as
/// many calls.
pub fn initialisers_go()
    ensures { InitialisersGo }
{}
