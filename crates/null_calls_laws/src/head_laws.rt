ghost use Rattle.null_calls_laws.specs.Heads.{AllHeadsGo};

/// A law on the rules: the expressions of statements in an instrumented unit give what the plain ones give, with the instrumented
/// trees: conditions (C99 6.8.4.1, 6.8.5), the tests and steps of a for (6.8.5.3), what a switch takes (6.8.4.2), what a return
/// gives (6.8.6.4), and expression statements (6.8.3).
pub fn heads_go()
    ensures { AllHeadsGo }
{}
