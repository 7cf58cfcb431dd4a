ghost use Rattle.c_meaning.specs.CallDepth.{OpenCallsAreBounded, OpenCallsOfProgramsAreBounded};

/// The law that, where each function calls functions of a lower rank alone, a word of the Dyck language has at most as many calls open at
/// once as the rank of the main function says, for shapes and for programs. The function does nothing.
pub fn open_calls_are_bounded()
    ensures shapes { OpenCallsAreBounded }
    ensures programs { OpenCallsOfProgramsAreBounded }
{}
