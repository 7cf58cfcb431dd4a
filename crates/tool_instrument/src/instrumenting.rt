ghost use Rattle.std.specs.Prelude.{◌≡◌, ◌≤◌, ℕ, List, length, IfOk, IfErr, IfSome};
ghost use Rattle.c_syntax.specs.Text.{unit_text};
ghost use Rattle.c_syntax.specs.UnitView.{items_of};
ghost use Rattle.c_tree.specs.View.{program_of};
ghost use Rattle.dm_base.specs.declared.mode.Mode.TheVariants.{Plain};
ghost use Rattle.dm_io.specs.Store.{IsMissing};
ghost use Rattle.tool_instrument.specs.Instrument.{Instruments, IsInstrumentedText, RefusesToInstrument};
ghost use Rattle.tool_instrument.specs.Stopping.{IsStopWith};
ghost use Rattle.null_calls_laws.specs.Instrumented.{instrumented_unit};
ghost use Rattle.tool_steps.specs.Sources.{IsSourceOf};
ghost use Rattle.tool_frame.specs.Stop.{Stops};

use c_syntax::{Item, Unit};
use c_syntax_printing::{is_within, print};
use dm_base::{Mode, OutOfMemory, Status};
use dm_io::Store;
use null_calls::instrumented_items;
use null_calls_laws::{instrumented_texts_are_accepted, instrumented_units_are_units};
use std::alloc::Global;
use tool_frame::{Finished, Stop, fixed_line};
use tool_steps::{Source, source_in};

// The greatest length of an instrumented text, in bytes.
const LONGEST: u32 = 16_777_216;

// The stop with this line.
fn stop_with(alloc: Global, text: &[u8]) -> Stop
    ensures { IsStopWith result text.now }
{
    match fixed_line(alloc, text) {
        Ok(line) => Stop::Source(line),
        Err(_) => Stop::OutOfMemory,
    }
}

// The text of the instrumented unit.
fn printed(alloc: Global, source: &Source, items: Vec<Item>) -> Result<Vec<u8>, OutOfMemory>
    requires items { items_of items.items ≡ instrumented_unit (program_of source.now.program) (items_of source.now.unit.items.items) }
    requires source { (text : List ℕ) × IsSourceOf text Plain source.now }
    requires short { length (unit_text (items_of items.items)) ≤ 16777216 }
    ensures { IfOk result (λ text. IsInstrumentedText (items_of source.now.unit.items.items) (program_of source.now.program) text.items) }
{
    instrumented_units_are_units();
    instrumented_texts_are_accepted();
    let unit = Unit { items };
    let text = print(alloc, &unit)?;
    Ok(text)
}

/// The instrumented text of the C text in a file: its unit with null calls round the marked calls of its program, printed (Giffin, Jha and
/// Miller 2004). The text in the file is read in the mode Plain, and the instrumented text is accepted in the mode Instrumented, as a
/// program that does what the plain one does but for null calls.
///
/// # Errors
///
/// `Source` where the text is refused, as `tool_steps::source_in` says, or where its instrumented text would have more than 16 MiB, which is
/// known before that text is made; `Read` where a read failed, and `OutOfMemory`.
pub fn instrument_source<S: Store>(
    alloc: Global,
    store: &mut S,
    name: &str,
) -> Result<Finished, Stop>
    ensures made { IfOk result (λ done. (done.status ≡ Status.Done) × IfSome (S.files store.old) (λ told. Instruments told name.now done.text.items)) }
    ensures same { S.files store.new ≡ S.files store.old }
    ensures never_falls { S.faults store.old ≤ S.faults store.new }
    ensures stop { IfErr result (λ stop. Stops stop (RefusesToInstrument (S.files store.old) name.now) (IsMissing (S.files store.old) name.now) (S.faults store.old) (S.faults store.new)) }
{
    let source = source_in(alloc, store, name, Mode::Plain)?;
    let items = instrumented_items(alloc, &source.unit, &source.program)?;
    if !is_within(&items, LONGEST) {
        return Err(stop_with(alloc, b"source refused N1\n"));
    }
    let text = printed(alloc, &source, items)?;
    Ok(Finished {
        status: Status::Done,
        text,
    })
}
