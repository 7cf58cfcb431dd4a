ghost use Rattle.c_tree.specs.PatternsRight.{PatternsAreRight};
ghost use Rattle.c_tree.specs.OperatorTypes.{ConversionsFit, UnaryFits, ArithmeticFits, ComparisonsFit};

/// Operators on integers give values of the types that a typed tree says, or one of the kinds U1 to U3; a
/// conversion and a comparison always give a value.
pub fn operators_keep_types()
    ensures conversions { ConversionsFit }
    ensures unary { UnaryFits }
    ensures arithmetic { ArithmeticFits }
    ensures comparisons { ComparisonsFit }
{}

/// The pattern of a direct system call has an entry for each recorded argument, and each number is in the
/// range of its argument.
pub fn patterns_are_right()
    ensures { PatternsAreRight }
{}
