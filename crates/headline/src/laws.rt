ghost use Rattle.headline.specs.Headline.{TheHeadline};

use crate::accepted_runs::texts_raise_no_alarm;
use c_rules_laws::a_text_is_accepted_as_one_program;
use flow_model::languages_are_nested;
use null_calls_laws::{instrumented_texts_are_accepted, marked_runs_are_runs};

/// The headline (Wagner and Dean 2001; Giffin, Jha and Miller 2004). For every C text that is accepted in the mode Plain, all recorded
/// results and every bound of turns: the instrumented text, where it has at most 16 MiB, is accepted in the mode Instrumented, and the
/// program that it is accepted as does what the plain one does once null calls are erased; the plain program's models contain the trace
/// of every such run, Dyck inside abstract stack inside callgraph; and each monitor accepts exactly its model's words, the Dyck monitor up
/// to its bound of open calls. The function does nothing.
pub fn texts_keep_the_headline()
    ensures { TheHeadline }
{
    languages_are_nested();
    texts_raise_no_alarm();
    marked_runs_are_runs();
    a_text_is_accepted_as_one_program();
    instrumented_texts_are_accepted();
}
