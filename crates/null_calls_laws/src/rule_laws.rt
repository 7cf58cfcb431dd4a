ghost use Rattle.null_calls_laws.specs.ExpressionLaws.{ChoicesFollow, OperandsFollow, PairsFollow};

/// A law on the rules with one operand: where the operand's tree is another one's with its marked calls made into comma
/// expressions, the rule that is fine for the other operand is fine for it, gives the same type and constant, and its tree is
/// the other tree with its marked calls made so.
pub fn operands_follow()
    ensures { OperandsFollow }
{}

/// The law on the rules with two operands, where the second operand's temporaries are numbered after those of the first one.
pub fn pairs_follow()
    ensures { PairsFollow }
{}

/// The law on the conditional operator.
pub fn choices_follow()
    ensures { ChoicesFollow }
{}
