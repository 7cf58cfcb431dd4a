ghost use Rattle.std.specs.Prelude.{◌≡◌, ◌≤◌, IfOk, IfErr, IfSome};
ghost use Rattle.c_meaning.specs.Runs.{run};
ghost use Rattle.c_tree.specs.View.{program_of};
ghost use Rattle.tool_texts.specs.Run.{LacksToRun, RefusesToRun, Runs};
ghost use Rattle.tool_steps.specs.Results.{run_text};
ghost use Rattle.dm_base.specs.declared.outcome.TraceEnd.TheVariants.{Ended};
ghost use Rattle.tool_frame.specs.Stop.{Stops};
ghost use Rattle.trace_file.specs.Trace.{IsTrace};

use c_meaning::values_have_kinds;
use c_tree::Program;
use dm_base::{Mode, OutOfMemory, Status, TraceEnd};
use dm_io::Store;
use std::alloc::Global;
use sys_table::SysResult;
use tool_frame::{Finished, Stop};
use tool_steps::{results_in, run, source_in};
use trace_file::write_trace;

// The text of the trace of the program's run with these recorded results and so many turns.
fn trace_of(
    alloc: Global,
    program: &Program,
    results: &[SysResult],
    turns: u32,
) -> Result<Vec<u8>, OutOfMemory>
    ensures text { IfOk result (λ text. text.items ≡ run_text (run (program_of program.now) results.now turns)) }
    ensures formed { IfOk result (λ text. IsTrace text.items (run (program_of program.now) results.now turns).trace (Ended (run (program_of program.now) results.now turns).outcome)) }
{
    values_have_kinds();
    let _sites = program.sites();
    let done = run(alloc, program, results, turns)?;
    let text = write_trace(alloc, &done.trace, &TraceEnd::Ended(done.outcome))?;
    Ok(text)
}

/// Runs the program of the C text in a file with the recorded results in another, and tells the trace of the run with its outcome
/// (C99 5.1.2.3). At most so many functions are entered and loops are tested, together. The text is read in the mode of
/// instrumented units, which accepts each plain text as the same program.
///
/// # Errors
///
/// The source is read and refused before the results are read. `Source` where the text is no program, `Record` where the other
/// file is no file of results within the limits, `Read` where a read failed or a file isn't there, and `OutOfMemory`.
pub fn run_source<S: Store>(
    alloc: Global,
    store: &mut S,
    name: &str,
    results: &str,
    turns: u32,
) -> Result<Finished, Stop>
    ensures made { IfOk result (λ done. (done.status ≡ Status.Done) × IfSome (S.files store.old) (λ told. Runs told name.now results.now turns done.text.items)) }
    ensures same { S.files store.new ≡ S.files store.old }
    ensures never_falls { S.faults store.old ≤ S.faults store.new }
    ensures stop { IfErr result (λ stop. Stops stop (RefusesToRun (S.files store.old) name.now results.now) (LacksToRun (S.files store.old) name.now results.now) (S.faults store.old) (S.faults store.new)) }
{
    let source = source_in(alloc, store, name, Mode::Instrumented)?;
    let records = results_in(alloc, store, results)?;
    let text = trace_of(alloc, &source.program, &records, turns)?;
    Ok(Finished {
        status: Status::Done,
        text,
    })
}
