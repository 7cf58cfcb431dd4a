ghost use Rattle.null_calls_laws.specs.Follow.{ExpressionsGo};

/// A law on the rules: where calls of an instrumented unit give what the plain ones give, with the instrumented tree, so does
/// every expression.
pub fn expressions_go_where_calls_do()
    ensures { ExpressionsGo }
{}
