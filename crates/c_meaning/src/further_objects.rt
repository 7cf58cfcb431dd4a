ghost use Rattle.c_meaning.specs.FurtherLaws.{FurtherObjectsChangeNothing, RunsDoAlike};

/// From a typed state on, a call, a loop, an expression or a statement of a well-typed program does the same where memory
/// has further objects, of whose names the store typing doesn't tell (C99 6.2.4): it gives the same value after the same
/// events, or the run stops alike, the objects of the first memory become the same, and the further objects stay as they
/// were. So an object that a transformed program adds, and whose address is never taken, changes nothing that is seen. A whole
/// run that begins with further static objects is the run without them. The function does nothing.
pub fn further_objects_change_nothing()
    ensures parts { FurtherObjectsChangeNothing }
    ensures runs { RunsDoAlike }
{}
