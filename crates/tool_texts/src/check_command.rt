ghost use Rattle.std.specs.Prelude.{◌≡◌, ◌≤◌, IfOk, IfErr, IfSome};
ghost use Rattle.c_tree.specs.View.{program_of};
ghost use Rattle.dm_base.specs.declared.mode.Mode.TheVariants.{Plain};
ghost use Rattle.dm_io.specs.Store.{IsMissing};
ghost use Rattle.tool_frame.specs.Stop.{Stops};
ghost use Rattle.tool_texts.specs.Check.{checked_text, Checks};
ghost use Rattle.tool_steps.specs.Sources.{RefusesSource};

use c_tree::Program;
use dm_base::{Mode, OutOfMemory, Status};
use dm_io::Store;
use line_text::{push_bytes, push_decimal};
use std::alloc::Global;
use tool_frame::{Finished, Stop};
use tool_steps::source_in;

/// The line that `check` writes of a program: how many functions it defines, and how many call expressions it has.
pub fn counts_line(alloc: Global, program: &Program) -> Result<Vec<u8>, OutOfMemory>
    ensures { IfOk result (λ line. line.items ≡ checked_text (program_of program.now)) }
{
    let mut line = Vec::new(alloc);
    push_bytes(&mut line, b"ok functions ")?;
    push_decimal(alloc, &mut line, u64::from(program.defined()))?;
    push_bytes(&mut line, b" sites ")?;
    push_decimal(alloc, &mut line, u64::from(program.sites()))?;
    push_bytes(&mut line, b"\n")?;
    Ok(line)
}

/// Checks the C text in a file, and counts its functions and call expressions.
pub fn check_source<S: Store>(alloc: Global, store: &mut S, name: &str) -> Result<Finished, Stop>
    ensures made { IfOk result (λ done. (done.status ≡ Status.Done) × IfSome (S.files store.old) (λ told. Checks told name.now done.text.items)) }
    ensures same { S.files store.new ≡ S.files store.old }
    ensures never_falls { S.faults store.old ≤ S.faults store.new }
    ensures stop { IfErr result (λ stop. Stops stop (RefusesSource Plain (S.files store.old) name.now) (IsMissing (S.files store.old) name.now) (S.faults store.old) (S.faults store.new)) }
{
    let source = source_in(alloc, store, name, Mode::Plain)?;
    let text = counts_line(alloc, &source.program)?;
    Ok(Finished {
        status: Status::Done,
        text,
    })
}
