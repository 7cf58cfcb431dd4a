ghost use Rattle.null_calls_laws.specs.Counts.{ExpressionsCountAlike, PlacesStayNear};
ghost use Rattle.null_calls_laws.specs.CountedStatements.{BlocksCountAlike, StatementsCountAlike};

/// A law on expressions with null calls: they hold the strings that the plain ones hold, and at most three times as many calls,
/// where each marked call whose designator is not kept names what it calls.
pub fn counts_stay()
    ensures { ExpressionsCountAlike }
{}

/// A law on expressions with null calls: what stands behind one stays near what stands behind the plain one.
pub fn places_stay_near()
    ensures { PlacesStayNear }
{}

/// A law on statements with null calls: they declare the variables that the plain ones declare, in order, and have at most three
/// times as many calls.
pub fn statements_stay()
    ensures { StatementsCountAlike }
{}

/// The same of the declarations and statements of a block.
pub fn blocks_stay()
    ensures { BlocksCountAlike }
{}
