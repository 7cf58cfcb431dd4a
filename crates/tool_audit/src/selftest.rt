ghost use Rattle.std.specs.Prelude.{◌≡◌, ◌≢◌, ◌≤◌, ◌<◌, ℕ, List, IfOk};
ghost use Rattle.c_meaning.specs.MarkedRuns.{marked_run};
ghost use Rattle.c_tree.specs.View.{program_of};
ghost use Rattle.dm_base.specs.declared.mode.Mode.TheVariants.{Plain};
ghost use Rattle.c_meaning.specs.GraphOfProgram.{graph_of_program};
ghost use Rattle.generated_program.specs.Generator.{generated_source, generated_results as results};
ghost use Rattle.generated_program.specs.Typed.{generated_program};
ghost use Rattle.tool_audit.specs.WholeRuns.{run_of};
ghost use Rattle.tool_audit.specs.Audit.{AreReported};
ghost use Rattle.tool_frame.specs.declared.stop.Stop.TheVariants as stops;
ghost use Rattle.tool_audit.specs.Selftest.{TellsSelftest};
ghost use Rattle.tool_audit.specs.Sources.{IsSourceOf};
ghost use Rattle.tool_audit.specs.SourceError.TheVariants as errors;

use crate::summary::summary_line;
use crate::{Audited, Source, SourceError, audit_program, read_source, texts_raise_no_alarm};
use c_rules_laws::a_text_is_accepted_as_one_program;
use dm_base::{Mode, OutOfMemory, Status};
use generated_program::{
    generated_calls_descend, generated_programs_are_small, generated_results, generated_text,
    generated_texts_are_accepted,
};
use line_text::push_bytes;
use std::alloc::Global;
use tool_frame::{Finished, Stop};

// The want of memory, where a text is refused for nothing else.
fn refused_memory(error: SourceError) -> OutOfMemory
    requires { (error ≢ errors.OutOfMemory) → ⊥ }
{
    match error {
        SourceError::OutOfMemory => OutOfMemory,
        _ => unreachable!(),
    }
}

// The want of memory, where an audit stops for nothing else.
fn stopped_memory(stop: Stop) -> OutOfMemory
    requires { (stop ≢ stops.OutOfMemory) → ⊥ }
{
    match stop {
        Stop::OutOfMemory => OutOfMemory,
        _ => unreachable!(),
    }
}

// What the generated text is read as.
fn source_of(alloc: Global, number: u32, last: u32) -> Result<Source, OutOfMemory>
    requires { last < 500 }
    ensures read { IfOk result (λ source. IsSourceOf (generated_source number last) Plain source) }
    ensures program { IfOk result (λ source. program_of source.program ≡ generated_program number last) }
{
    generated_texts_are_accepted();
    a_text_is_accepted_as_one_program();
    let text = generated_text(alloc, number, last)?;
    match read_source(alloc, &text, Mode::Plain) {
        Ok(source) => Ok(source),
        Err(error) => Err(refused_memory(error)),
    }
}

// The audit of the generated program with its recorded results, 1,000,000 turns and at most 1,000 open calls. The program's model is within
// the limits.
fn audit_of(alloc: Global, source: &Source, last: u32) -> Result<Audited, OutOfMemory>
    requires source { (text : List ℕ) × IsSourceOf text Plain source.now }
    requires program { (number : ℕ) × (program_of source.now.program ≡ generated_program number last) }
    requires last { last < 500 }
    ensures run { IfOk result (λ audited. run_of audited.run ≡ marked_run (program_of source.now.program) (results last) 1000000) }
    ensures nodes { IfOk result (λ audited. audited.nodes ≡ (graph_of_program (program_of source.now.program)).nodes) }
    ensures verdicts { IfOk result (λ audited. AreReported (graph_of_program (program_of source.now.program)) 1000 (marked_run (program_of source.now.program) (results last) 1000000).trace audited.verdicts.status audited.verdicts.text.items) }
{
    generated_programs_are_small();
    let records = generated_results(alloc, last)?;
    match audit_program(alloc, source, &records, 1_000_000, 1_000) {
        Ok(audited) => Ok(audited),
        Err(stop) => Err(stopped_memory(stop)),
    }
}

/// Tries the tool on a program that it makes itself, with the number from which the program is drawn and with 1 to 500 functions before main:
/// its text is read, instrumented and run with results that are made for it, and the trace is judged by the three monitors of the text's own
/// model (Wagner and Dean 2001; Giffin, Jha and Miller 2004). The text tells in a summary how large the program is and how many events its
/// run makes, then the three verdicts, which are Accepted, and then how many calls may come next.
///
/// # Errors
///
/// `OutOfMemory` where memory was refused.
pub fn self_test(alloc: Global, number: u32, size: u32) -> Result<Finished, OutOfMemory>
    requires { (1 ≤ size) × (size ≤ 500) }
    ensures status { IfOk result (λ done. done.status ≡ Status.Done) }
    ensures tells { IfOk result (λ done. TellsSelftest number size done.text.items) }
{
    generated_texts_are_accepted();
    texts_raise_no_alarm();
    generated_calls_descend();
    let last = size - 1;
    let source = source_of(alloc, number, last)?;
    let audited = audit_of(alloc, &source, last)?;
    let mut text = summary_line(alloc, &source.program, &audited)?;
    push_bytes(&mut text, &audited.verdicts.text)?;
    Ok(Finished {
        status: audited.verdicts.status,
        text,
    })
}
