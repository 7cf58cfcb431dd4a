ghost use Rattle.std.specs.Prelude.{◌≡◌, ◌≤◌, ◌+◌, take, IfOk, IfErr, IfSome};
ghost use Rattle.c_lexer.specs.TokenSpelling.{longest_text};
ghost use Rattle.dm_base.specs.declared.mode.Mode.TheVariants.{Plain};
ghost use Rattle.dm_io.specs.Store.{IsMissing};
ghost use Rattle.tool_texts.specs.Explained.{RefusesToExplain};
ghost use Rattle.tool_texts.specs.Stopping.{IsStopOfExplained};
ghost use Rattle.tool_frame.specs.Stop.{Stops};
ghost use Rattle.tool_texts.specs.Check.{Checks};

use crate::explanation::explanation;
use crate::{SourceError, counts_line, read_source};
use dm_base::{Mode, Status};
use dm_io::{Store, read_whole};
use std::alloc::Global;
use tool_frame::{Finished, Stop};

// The most bytes that are read: so the part of the line at which a text passes its limit is known as far as it is shown.
fn most_read() -> usize
    ensures { result ≡ longest_text Plain + 60 }
{
    1_048_636
}

// What is checked of a text: at most one byte more than it may have.
fn checked_part(text: &[u8]) -> &[u8]
    ensures { result.now ≡ take (longest_text Plain + 1) text.now }
{
    &text[..usize::min(1_048_577, text.len())]
}

// The stop of a refused text, with the explanation.
fn explained_with(alloc: Global, name: &[u8], text: &[u8], error: SourceError) -> Stop
    ensures { IsStopOfExplained result name.now text.now error }
{
    if error == SourceError::OutOfMemory {
        return Stop::OutOfMemory;
    }
    match explanation(alloc, name, text, error) {
        Ok(lines) => Stop::Source(lines),
        Err(_) => Stop::OutOfMemory,
    }
}

/// Checks the C text in a file, and counts its functions and call expressions. At most 60 bytes more are read than a text may have.
///
/// # Errors
///
/// `Source` where the text is refused, with the explanation of an error that `check` may answer; `Read` where a read failed, and
/// `OutOfMemory`.
pub fn explain_source<S: Store>(alloc: Global, store: &mut S, name: &str) -> Result<Finished, Stop>
    ensures made { IfOk result (λ done. (done.status ≡ Status.Done) × IfSome (S.files store.old) (λ told. Checks told name.now done.text.items)) }
    ensures same { S.files store.new ≡ S.files store.old }
    ensures never_falls { S.faults store.old ≤ S.faults store.new }
    ensures stop { IfErr result (λ stop. Stops stop (RefusesToExplain (S.files store.old) name.now) (IsMissing (S.files store.old) name.now) (S.faults store.old) (S.faults store.new)) }
{
    let text = read_whole(alloc, store, name, most_read())?;
    match read_source(alloc, checked_part(&text), Mode::Plain) {
        Ok(source) => {
            let line = counts_line(alloc, &source.program)?;
            Ok(Finished {
                status: Status::Done,
                text: line,
            })
        }
        Err(error) => Err(explained_with(alloc, name.as_bytes(), &text, error)),
    }
}
