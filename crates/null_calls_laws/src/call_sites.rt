ghost use Rattle.null_calls_laws.specs.Bodies.{BodiesAreTabled};

/// A law on programs that the rules type: in a body that is fine each call stands at the site at which the program's table has it, a
/// marked call whose designator is not kept names what it calls, and the temporaries of marked calls have scalar types that declarators
/// make, at most 18 for each call, with names that differ (C99 6.5.2.2, 6.7.5).
pub fn bodies_are_tabled()
    ensures { BodiesAreTabled }
{}
