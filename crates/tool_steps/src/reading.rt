ghost use Rattle.std.specs.Prelude.{◌≡◌, ◌≤◌, ◌+◌, ℕ, List, IfOk, IfErr, IfSome};
ghost use Rattle.c_lexer.specs.TokenSpelling.{longest_text};
ghost use Rattle.dm_io.specs.Store.{file_at, IsMissing};
ghost use Rattle.tool_frame.specs.Stop.{Stops};
ghost use Rattle.tool_steps.specs.Sources.{IsSourceOf, IsSourceCause, HasNoProgram, RefusesSource};

use crate::error::{SourceError, lexical, syntactic, untyped};
use crate::source::Source;
use crate::text_refusals::refused_with;
use c_check::{a_spelled_unit_is_lexical, check};
use c_lexer::tokens;
use c_parser::parse;
use dm_base::Mode;
use dm_io::{Store, read_whole};
use std::alloc::Global;
use tool_frame::Stop;

/// The unit and the program of a C text in the mode: its tokens are read, then its unit, and then the unit is checked.
///
/// # Errors
///
/// The first step that fails names the error. Then the text is accepted as no program in the mode, unless memory was refused.
pub fn read_source(alloc: Global, text: &[u8], mode: Mode) -> Result<Source, SourceError>
    ensures read { IfOk result (λ source. IsSourceOf text.now mode source) }
    ensures cause { IfErr result (λ error. IsSourceCause error text.now mode) }
    ensures none { IfErr result (λ error. HasNoProgram error text.now mode) }
{
    a_spelled_unit_is_lexical();
    let found = match tokens(alloc, text, mode) {
        Ok(found) => found,
        Err(error) => return Err(lexical(error)),
    };
    let unit = match parse(alloc, &found, mode) {
        Ok(unit) => unit,
        Err(error) => return Err(syntactic(error)),
    };
    let program = match check(alloc, &unit, mode) {
        Ok(program) => program,
        Err(error) => return Err(untyped(error)),
    };
    Ok(Source { unit, program })
}

// One byte more than a text may have in the mode.
fn most_read(mode: Mode) -> usize
    ensures { result ≡ longest_text mode + 1 }
{
    match mode {
        Mode::Plain => 1_048_577,
        Mode::Instrumented => 16_777_217,
    }
}

/// The unit and the program of the C text in a file, in the mode. At most one byte more is read than a text may have.
///
/// # Errors
///
/// `Source` where the text is refused, as `read_source` says, `Read` where a read failed, and `OutOfMemory`.
pub fn source_in<S: Store>(
    alloc: Global,
    store: &mut S,
    name: &str,
    mode: Mode,
) -> Result<Source, Stop>
    ensures read { IfOk result (λ source. IfSome (S.files store.old) (λ told. IsSourceOf (file_at told name.now) mode source)) }
    ensures some { IfOk result (λ source. (text : List ℕ) × IsSourceOf text mode source) }
    ensures stop { IfErr result (λ stop. Stops stop (RefusesSource mode (S.files store.old) name.now) (IsMissing (S.files store.old) name.now) (S.faults store.old) (S.faults store.new)) }
    ensures same { S.files store.new ≡ S.files store.old }
    ensures never_falls { S.faults store.old ≤ S.faults store.new }
{
    let text = read_whole(alloc, store, name, most_read(mode))?;
    match read_source(alloc, &text, mode) {
        Ok(source) => Ok(source),
        Err(error) => Err(refused_with(alloc, error)),
    }
}
