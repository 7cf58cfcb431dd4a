ghost use Rattle.c_meaning.specs.BadResults.{BadResultsAreRecorded};
ghost use Rattle.c_meaning.specs.More.{MoreRecordsChangeNothing, MoreTurnsChangeNothing};
ghost use Rattle.c_meaning.specs.NullCalls.{NullCallsAreMade, NullCallsChangeNothing};
ghost use Rattle.c_meaning.specs.Records.{RecordsAreJudged};

/// Null calls round the calls of a program change nothing of its runs: they have the same outcome, make the same
/// system calls with the same results, and write the same bytes. This holds for every program, also one that makes
/// null calls itself. A program that makes none has none in its runs; so its run with null calls round its calls,
/// once these are left out, is its run. The function does nothing.
pub fn null_calls_change_nothing()
    ensures round_calls { NullCallsChangeNothing }
    ensures made { NullCallsAreMade }
{}

/// A run that did not end for want of a recorded result is the same with more of them, and one that did not end for
/// want of turns is the same with more of those. The function does nothing.
pub fn more_changes_nothing()
    ensures records { MoreRecordsChangeNothing }
    ensures turns { MoreTurnsChangeNothing }
{}

/// A run takes a recorded result for a system call exactly where the result answers the call by the rules of
/// `sys_table`, and the number of a bad result, counted from 1, is that of one of the recorded results. The
/// function does nothing.
pub fn records_are_judged()
    ensures answers { RecordsAreJudged }
    ensures bad_result { BadResultsAreRecorded }
{}
