ghost use Rattle.c_meaning.specs.Callees.{CalleesAreCandidates};
ghost use Rattle.c_meaning.specs.Laws.{PlacesAreInside, PointersAreInside, RunsAreTyped, RunsBeginTyped, TypesAreKept};

/// In a well-typed program each value that is loaded, passed, stored or given has the kind of its type: a run begins
/// in a typed state, and each of its parts keeps types. So a run never ends for a value of another kind than its type,
/// each of its events can be recorded, and each pointer lies in its object or one past the last element of its array.
/// The function does nothing.
pub fn values_have_kinds()
    ensures runs { RunsAreTyped }
    ensures beginning { RunsBeginTyped }
    ensures parts { TypesAreKept }
    ensures pointers { PointersAreInside }
    ensures places { PlacesAreInside }
{}

/// Each function that a well-typed program calls is a candidate of the call's site in the call graph: the one that a
/// direct call names, and any function value of the type of the pointer that is called. The function does nothing.
pub fn callees_are_candidates()
    ensures { CalleesAreCandidates }
{}
