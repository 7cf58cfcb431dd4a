ghost use Rattle.null_calls_laws.specs.StatementsBeside.{BlocksGo, StatementsGo};

/// A law on the rules: a statement of an instrumented unit gives what the plain one gives, with the instrumented tree and the
/// same variables and labels, and holds the same strings, where each call stands at its site and the scopes of the two units are
/// beside each other (C99 6.8).
pub fn statements_go()
    ensures { StatementsGo }
{}

/// The same of the declarations and statements of a block (6.8.2).
pub fn blocks_go()
    ensures { BlocksGo }
{}
