ghost use Rattle.c_rules_laws.specs.AreSites.{CallExpressionsAreSites};

/// A law on units that are typed (C99 6.5.2.2): their call expressions are the sites of the program, in order; as many, and in turn in
/// the same functions. The function does nothing.
pub fn call_expressions_are_sites()
    ensures { CallExpressionsAreSites }
{}
