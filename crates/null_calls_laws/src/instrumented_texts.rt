ghost use Rattle.null_calls_laws.specs.InstrumentedTexts.{InstrumentedTextsAreAccepted};

use crate::text_laws::instrumented_texts_are_read_back;
use crate::{
    a_plain_text_makes_no_null_call, instrumented_texts_run_marked,
    units_are_typed_alike_apart_from_places,
};
use c_meaning::marked_runs_are_runs;

/// A law on texts: where the instrumented text of a text that is accepted in the mode Plain has at most 16 MiB, it is accepted in the mode
/// Instrumented, as the program with null calls round its marked calls (Giffin, Jha and Miller 2004); for all recorded results and
/// bounds of turns that program ends as the plain one, makes the same system calls and writes the same bytes, and without null calls its
/// trace is the plain one's.
pub fn instrumented_texts_are_accepted()
    ensures { InstrumentedTextsAreAccepted }
{
    a_plain_text_makes_no_null_call();
    marked_runs_are_runs();
    instrumented_texts_run_marked();
    instrumented_texts_are_read_back();
    units_are_typed_alike_apart_from_places();
}
