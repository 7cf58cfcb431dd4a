ghost use Rattle.null_calls_laws.specs.Heights.{BlocksStayLow, ExpressionsStayLow};

/// A law on expressions: the nodes of one with null calls round its marked calls stand at most twice as deep in each other as those of
/// the plain one, so within the limit of instrumented units where the plain one is within that of plain units (C99 5.2.4.1).
pub fn expressions_stay_low()
    ensures { ExpressionsStayLow }
{}

/// The same of the declarations and statements of a body.
pub fn blocks_stay_low()
    ensures { BlocksStayLow }
{}
