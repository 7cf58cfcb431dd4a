ghost use Rattle.null_calls_laws.specs.Pieces.{DeclarationsDeclare, KeepingSets, KeptAreGiven, KeptIsGiven, NullCallsAreEvents, ShapesStay, TypesStay};

/// What the pieces do from which a marked call is put together (`instrumented_program`): a null call is its event and changes
/// nothing else; a temporary has the value that was kept in it, alone and as an argument among others; and the declarations
/// before a function's body give each temporary its cells. An expression whose value is wanted has the type that it had,
/// blocks declare the same variables, a switch goes on at the same group, and functions keep their numbers. The function
/// does nothing.
pub fn added_pieces_do()
    ensures null_calls { NullCallsAreEvents }
    ensures keeping { KeepingSets }
    ensures kept { KeptIsGiven }
    ensures arguments { KeptAreGiven }
    ensures declarations { DeclarationsDeclare }
    ensures types { TypesStay }
    ensures shapes { ShapesStay }
{}
