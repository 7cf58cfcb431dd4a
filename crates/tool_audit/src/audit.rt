ghost use Rattle.std.specs.Prelude.{◌≡◌, ◌++◌, ◌≤◌, ◌<◌, ◌^◌, ℕ, List, IfOk, IfErr, IfSome, OnOk};
ghost use Rattle.null_calls_laws.specs.MarkedRuns.{marked_run};
ghost use Rattle.tool_audit.specs.Audit.{AreReported, Audits, IsAuditOf, IsAuditStatus, LacksToAudit, RefusesToAudit};
ghost use Rattle.tool_audit.specs.Stopping.{StopsAuditing};
ghost use Rattle.c_tree.specs.View.{program_of};
ghost use Rattle.dm_base.specs.declared.mode.Mode.TheVariants.{Plain};
ghost use Rattle.c_meaning.specs.GraphOfProgram.{graph_of_program};
ghost use Rattle.tool_steps.specs.WholeRuns.{run_of};
ghost use Rattle.tool_steps.specs.Sources.{IsSourceOf};
ghost use Rattle.tool_frame.specs.Stop.{Stops};

use crate::following::{Followed, followed_run};
use crate::programs::instrumented_program;
use crate::reports::report;
use c_meaning::values_have_kinds;
use dm_base::{Mode, OutOfMemory, Status, TraceEnd};
use dm_io::Store;
use headline::texts_raise_no_alarm;
use std::alloc::Global;
use sys_table::SysResult;
use tool_frame::{Finished, Stop};
use tool_monitors::{AllMonitors, Listener};
use tool_steps::{Run, Source, model_of, results_in, source_in};
use trace_file::write_trace;

// One text after another.
fn joined(first: Vec<u8>, second: &[u8]) -> Result<Vec<u8>, OutOfMemory>
    ensures { IfOk result (λ text. text.items ≡ first.items ++ second.now) }
{
    let mut text = first;
    text.extend_from_slice(second)?;
    Ok(text)
}

/// A run and what the monitors say of it.
#[derive(Drop)]
pub struct Audited {
    pub run: Run,
    /// How many nodes the model of the program has.
    pub nodes: u32,
    /// The verdict lines of the three monitors with their status, and the line of the calls that may come next.
    pub verdicts: Finished,
}

/// Audits the program of a C text: the text is instrumented, its program runs with these recorded results and so many turns, and the trace
/// is judged by the three monitors of the text's own model, with a bound from 1 to 65,535 of open calls for the Dyck monitor (Giffin, Jha
/// and Miller 2004).
///
/// # Errors
///
/// `Source` where the model would have more than 200,000 nodes, and `OutOfMemory`.
pub fn audit_program(
    alloc: Global,
    source: &Source,
    records: &[SysResult],
    turns: u32,
    bound: u32,
) -> Result<Audited, Stop>
    requires source { (text : List ℕ) × IsSourceOf text Plain source.now }
    requires bound { (1 ≤ bound) × (bound < 2 ^ 16) }
    ensures run { IfOk result (λ audited. run_of audited.run ≡ marked_run (program_of source.now.program) records.now turns) }
    ensures nodes { IfOk result (λ audited. audited.nodes ≡ (graph_of_program (program_of source.now.program)).nodes) }
    ensures few { OnOk result ((graph_of_program (program_of source.now.program)).nodes ≤ 200000) }
    ensures verdicts { IfOk result (λ audited. AreReported (graph_of_program (program_of source.now.program)) bound (marked_run (program_of source.now.program) records.now turns).trace audited.verdicts.status audited.verdicts.text.items) }
    ensures stop { IfErr result (λ stop. StopsAuditing stop (program_of source.now.program)) }
{
    texts_raise_no_alarm();
    let model = match model_of(alloc, &source.program) {
        Ok(model) => model,
        Err(stop) => return Err(stop),
    };
    let program = instrumented_program(alloc, source)?;
    let followed = followed_run::<AllMonitors>(alloc, &program, records, turns, &model, bound)?;
    let Followed { run, monitors } = followed;
    let heard = monitors.conclude(alloc, &model)?;
    let verdicts = report(alloc, heard)?;
    let nodes = model.nodes();
    Ok(Audited {
        run,
        nodes,
        verdicts,
    })
}

// The text of the audit of a source's program with these recorded results and so many turns.
fn audit_text(
    alloc: Global,
    source: &Source,
    records: &[SysResult],
    turns: u32,
    bound: u32,
) -> Result<Finished, Stop>
    requires source { (text : List ℕ) × IsSourceOf text Plain source.now }
    requires bound { (1 ≤ bound) × (bound < 2 ^ 16) }
    ensures made { IfOk result (λ done. IsAuditOf (graph_of_program (program_of source.now.program)) bound (marked_run (program_of source.now.program) records.now turns) done.status done.text.items) }
    ensures few { OnOk result ((graph_of_program (program_of source.now.program)).nodes ≤ 200000) }
    ensures stop { IfErr result (λ stop. StopsAuditing stop (program_of source.now.program)) }
{
    values_have_kinds();
    let _sites = source.program.sites();
    let found = match audit_program(alloc, source, records, turns, bound) {
        Ok(found) => found,
        Err(stop) => return Err(stop),
    };
    let Audited {
        run,
        nodes: _nodes,
        verdicts,
    } = found;
    let trace = write_trace(alloc, &run.trace, &TraceEnd::Ended(run.outcome))?;
    let text = joined(trace, &verdicts.text)?;
    Ok(Finished {
        status: verdicts.status,
        text,
    })
}

/// Audits the C text in a file: the text is instrumented, its program runs with the recorded results in another file and so many turns, and
/// the trace is judged by the three monitors of the text's own model, with a bound from 1 to 65,535 of open calls for the Dyck monitor. The
/// text tells the trace, the three verdicts and how many calls may come next. No verdict is Rejected, and that of the Dyck monitor is Bound
/// exactly where more calls are open at once than the bound allows (Giffin, Jha and Miller 2004).
///
/// # Errors
///
/// `Source` where the text is refused or its model would have more than 200,000 nodes, `Record` where the file of results is refused, `Read`
/// where a read failed or a file isn't there, and `OutOfMemory`.
pub fn audit_source<S: Store>(
    alloc: Global,
    store: &mut S,
    name: &str,
    results: &str,
    turns: u32,
    bound: u32,
) -> Result<Finished, Stop>
    requires { (1 ≤ bound) × (bound < 2 ^ 16) }
    ensures made { IfOk result (λ done. IfSome (S.files store.old) (λ told. Audits told name.now results.now turns bound done.status done.text.items)) }
    ensures ended { IfOk result (λ done. IsAuditStatus done.status) }
    ensures same { S.files store.new ≡ S.files store.old }
    ensures never_falls { S.faults store.old ≤ S.faults store.new }
    ensures stop { IfErr result (λ stop. Stops stop (RefusesToAudit (S.files store.old) name.now results.now) (LacksToAudit (S.files store.old) name.now results.now) (S.faults store.old) (S.faults store.new)) }
{
    let source = source_in(alloc, store, name, Mode::Plain)?;
    let records = results_in(alloc, store, results)?;
    match audit_text(alloc, &source, &records, turns, bound) {
        Ok(finished) => Ok(finished),
        Err(stop) => Err(stop),
    }
}
