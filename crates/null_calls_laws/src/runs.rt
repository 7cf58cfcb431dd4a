ghost use Rattle.null_calls_laws.specs.RunLaws.{InstrumentedRunsAreMarkedRuns, InstrumentedAddNullCalls, InstrumentedRunMarked, ErasedInstrumentedRunAlike};
ghost use Rattle.null_calls_laws.specs.NoFalseAlarmInstrumented.{InstrumentedRunsAreWords, MonitorsAcceptInstrumentedRuns};

/// A program that is a well-typed program with null calls round its marked calls, whatever its sites are, does what the
/// program does with the null calls at its marked sites: it ends alike, after the same events. So its runs differ from
/// those of the program in null calls alone, and where the program makes no null calls itself, their traces without null
/// calls are those of the program. The function does nothing.
pub fn instrumented_run_marked()
    ensures instrumented_unit { InstrumentedRunsAreMarkedRuns }
    ensures with_null_calls { InstrumentedRunMarked }
    ensures differ { InstrumentedAddNullCalls }
    ensures erased { ErasedInstrumentedRunAlike }
{}

/// No false alarm on such a program, where the program that it is made of makes no null calls itself: the trace of each of
/// its runs is in the Dyck language of that program, and is accepted whole by the callgraph and the stack monitor of that
/// program's graph, and by the Dyck monitor where no more calls are open at once than the bound allows; the Dyck monitor
/// never rejects it. The function does nothing.
pub fn instrumented_raise_no_alarm()
    ensures words { InstrumentedRunsAreWords }
    ensures monitors { MonitorsAcceptInstrumentedRuns }
{}
