ghost use Rattle.headline.specs.AcceptedRuns.{TextsRaiseNoAlarm};

use c_meaning::program_graph_has_the_words;
use c_rules_laws::{a_plain_text_makes_no_null_call, accepted_texts_are_programs};
use null_calls_laws::{marked_runs_are_runs, monitors_accept_runs, runs_raise_no_alarm};

/// No false alarm on a text (Wagner and Dean 2001): of each text that is accepted in the mode Plain, for all recorded results
/// and bounds of turns, the trace of the run is in the program's stack and callgraph languages, which are those of its graph, and
/// the callgraph and the stack monitor of that graph accept it whole. The same holds of the run with null calls round its
/// marked calls, whose trace is in the Dyck language too: the Dyck monitor never rejects it, and accepts it where no more calls
/// are open than its bound allows; and without its null calls its trace is that of the run.
pub fn texts_raise_no_alarm()
    ensures { TextsRaiseNoAlarm }
{
    accepted_texts_are_programs();
    a_plain_text_makes_no_null_call();
    runs_raise_no_alarm();
    monitors_accept_runs();
    marked_runs_are_runs();
    program_graph_has_the_words();
}
