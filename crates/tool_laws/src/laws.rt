ghost use Rattle.tool_laws.specs.FleetRuns.{FleetsRaiseNoAlarm};
ghost use Rattle.tool_laws.specs.JudgedRuns.{JudgedRunsAreAccepted};

use c_rules_laws::{a_plain_text_is_accepted_in_both_modes, a_text_is_accepted_as_one_program};
use headline::{texts_keep_the_headline, texts_raise_no_alarm};
use model_file::a_text_has_one_model;

/// No false alarm on what the commands write (Wagner and Dean 2001): where `model` wrote a model of a C text, and `run` a trace of the
/// same text, whatever the recorded results and the turns were, then `judge` on the two, asked for the callgraph or the stack monitor
/// with any bound, ends with the status of an accepted trace. Plain traces have no null calls, so the Dyck monitor is not spoken of.
pub fn judged_runs_are_accepted()
    ensures { JudgedRunsAreAccepted }
{
    a_plain_text_is_accepted_in_both_modes();
    a_text_is_accepted_as_one_program();
    a_text_has_one_model();
    texts_raise_no_alarm();
}

/// No false alarm on instrumented programs in a fleet (Wagner and Dean 2001; Giffin, Jha and Miller 2004): what `fleet` reports of a
/// process whose program is the instrumented text of a C text and whose model is that of the text, whatever its recorded results, its
/// turns and the schedule are, is no rejection; and it is a bound only with the Dyck monitor, at the first event that opens one call more
/// than the bound allows.
pub fn fleets_raise_no_alarm()
    ensures { FleetsRaiseNoAlarm }
{
    a_text_has_one_model();
    texts_raise_no_alarm();
    texts_keep_the_headline();
}
