ghost use Rattle.null_calls_laws.specs.TemporaryDeclarations.{TemporariesAreDeclared};
ghost use Rattle.null_calls_laws.specs.Spelled.{DeclaredTypesAreSpelled, SpellingsDeclare};

/// A scalar type that some specifier and declarator give is given by its own spelling too (`spec_of`, `declarator_of`), at
/// every place and round every name. So what is declared by the spelling of a declared scalar type has that type. The
/// function does nothing.
pub fn types_are_spelled()
    ensures spellings { SpellingsDeclare }
    ensures declared { DeclaredTypesAreSpelled }
{}

/// A block that begins with the declarations of temporaries, whose names are new and whose types are such scalars, gives by
/// the rules what its other items give behind them, with each temporary declared before them as the next one of the
/// instrumenter's variables, in its own type. The function does nothing.
pub fn temporaries_are_declared()
    ensures { TemporariesAreDeclared }
{}
