ghost use Rattle.null_calls_laws.specs.DeclarationsBeside.{DeclarationsGo, FirstsGo, NumbersStay};

/// A law on numbers of variables: behind variables of the same names the next plain number is the same in both units.
pub fn numbers_stay()
    ensures { NumbersStay }
{}

/// A law on the rules: a declaration in a block of an instrumented unit gives what the plain one gives, with instrumented initialisers,
/// the same variables, and the temporaries of the instrumented tree; the scopes behind the two stand beside each other (C99 6.7, 6.7.8).
pub fn declarations_go()
    ensures { DeclarationsGo }
{}

/// A law on the rules: so does what stands first in the head of a for, a declaration or an expression (C99 6.8.5.3).
pub fn firsts_go()
    ensures { FirstsGo }
{}
