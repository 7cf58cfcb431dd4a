ghost use Rattle.c_meaning.specs.MarkedRuns.{ErasedMarkedRunsAreRuns, MarkedRunsDifferInNullCalls};
ghost use Rattle.c_meaning.specs.Monitors.{MonitorsAcceptMarkedRuns, MonitorsAcceptRuns};
ghost use Rattle.c_meaning.specs.NoFalseAlarm.{MarkedRunsRaiseNoAlarm, RunsRaiseNoAlarm};

/// A run with null calls round the calls at marked sites ends as the run of the program does, makes the same system
/// calls with the same results and writes the same bytes; and where the program makes no null calls itself, its trace
/// without null calls is the trace of the run. The function does nothing.
pub fn marked_runs_are_runs()
    ensures differ { MarkedRunsDifferInNullCalls }
    ensures erased { ErasedMarkedRunsAreRuns }
{}

/// No false alarm: the trace of each run of a well-typed program, for all recorded results and bounds of turns, is in the
/// program's stack and in its callgraph language; and where the program makes no null calls itself, the trace of each run
/// with null calls round its marked calls is in its Dyck language. A run that meets undefined behaviour, wants a recorded
/// result or a turn is covered up to that moment. The function does nothing.
pub fn runs_raise_no_alarm()
    ensures runs { RunsRaiseNoAlarm }
    ensures marked_runs { MarkedRunsRaiseNoAlarm }
{}

/// Each run of a well-typed program is accepted whole by the callgraph and the stack monitor of the program's graph,
/// whatever the bound; and where the program makes no null calls itself, each run with null calls round its marked calls
/// is so too, is accepted by the Dyck monitor where no more calls are open at once than the bound allows, and is never
/// rejected by it. The function does nothing.
pub fn monitors_accept_runs()
    ensures runs { MonitorsAcceptRuns }
    ensures marked_runs { MonitorsAcceptMarkedRuns }
{}
