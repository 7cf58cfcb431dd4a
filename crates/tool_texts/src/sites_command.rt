ghost use Rattle.std.specs.Prelude.{◌≡◌, ◌≤◌, ◌+◌, IfOk, IfErr, IfSome};
ghost use Rattle.c_lexer.specs.TokenSpelling.{longest_text};
ghost use Rattle.dm_base.specs.declared.mode.Mode.TheVariants.{Plain};
ghost use Rattle.dm_io.specs.Store.{IsMissing};
ghost use Rattle.tool_frame.specs.Stop.{Stops};
ghost use Rattle.tool_steps.specs.Sources.{RefusesSource};
ghost use Rattle.tool_texts.specs.Sites.{TellsSites};

use c_rules_laws::call_expressions_are_sites;
use dm_base::{Mode, Status};
use dm_io::{Store, read_whole};
use site_lines::sites_text;
use std::alloc::Global;
use tool_frame::{Finished, Stop};
use tool_steps::{read_source, refused_with};

// One byte more than a text may have.
fn most_read() -> usize
    ensures { result ≡ longest_text Plain + 1 }
{
    1_048_577
}

/// The call expressions of the C text in a file, one line each: the number of the site, what is called there, where it stands, in which
/// function, and which functions may be called. At most one byte more is read than a text may have.
///
/// # Errors
///
/// `Source` where the text is refused, as `check` refuses it; `Read` where a read failed or the file isn't there; and `OutOfMemory`.
pub fn sites_of_source<S: Store>(alloc: Global, store: &mut S, name: &str) -> Result<Finished, Stop>
    ensures made { IfOk result (λ done. (done.status ≡ Status.Done) × IfSome (S.files store.old) (λ told. TellsSites told name.now done.text.items)) }
    ensures same { S.files store.new ≡ S.files store.old }
    ensures never_falls { S.faults store.old ≤ S.faults store.new }
    ensures stop { IfErr result (λ stop. Stops stop (RefusesSource Plain (S.files store.old) name.now) (IsMissing (S.files store.old) name.now) (S.faults store.old) (S.faults store.new)) }
{
    call_expressions_are_sites();
    let read = read_whole(alloc, store, name, most_read())?;
    match read_source(alloc, &read, Mode::Plain) {
        Ok(source) => {
            let text = sites_text(alloc, name.as_bytes(), &read, &source.unit, &source.program)?;
            Ok(Finished {
                status: Status::Done,
                text,
            })
        }
        Err(error) => Err(refused_with(alloc, error)),
    }
}
