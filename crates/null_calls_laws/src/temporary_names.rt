ghost use Rattle.null_calls_laws.specs.TemporaryNames.{NamesAreFree, NamesDiffer};

/// The names of the temporaries of a marked call are names of the instrumenter, may be declared in an instrumented unit
/// (C99 7.1.3 reserves them in others), and are none of a system call or a null call; and two temporaries of a unit whose
/// sites and arguments have numbers of at most ten digits have different names. The function does nothing.
pub fn temporaries_have_names()
    ensures free { NamesAreFree }
    ensures differ { NamesDiffer }
{}
