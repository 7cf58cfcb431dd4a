ghost use Rattle.std.specs.Prelude.{◌≡◌, ◌++◌, decimal, length, if◌then◌else◌, IfOk, OnOk};
ghost use Rattle.c_tree.specs.View.{program_of};
ghost use Rattle.generated_program.specs.Bounds.{marked_sites};
ghost use Rattle.tool_audit.specs.Summary.{program_counts, run_counts, counts_text};

use crate::Audited;
use c_tree::Program;
use dm_base::OutOfMemory;
use flow_graph::Calls;
use line_text::{push_bytes, push_decimal};
use std::alloc::Global;

// One where it is so, and else nothing.
fn one_if(yes: bool) -> u32
    ensures { result ≡ (if yes then 1 else 0) }
{
    if yes { 1 } else { 0 }
}

// Round how many of the program's calls null calls stand.
fn marked_count(alloc: Global, program: &Program) -> Result<u32, OutOfMemory>
    ensures { IfOk result (λ count. count ≡ length (marked_sites (program_of program.now))) }
{
    let calls = Calls::of(alloc, program)?;
    let sites = program.sites();
    let mut count = 0;
    for site in 0..sites {
        let is_marked = calls.marked(site);
        count += one_if(is_marked);
    }
    Ok(count)
}

// Adds a name and a number.
fn push_count(
    alloc: Global,
    line: &mut Vec<u8>,
    name: &[u8],
    number: u64,
) -> Result<(), OutOfMemory>
    ensures { OnOk result (line.new.items ≡ line.old.items ++ (name.now ++ decimal number)) }
{
    push_bytes(line, name)?;
    push_decimal(alloc, line, number)
}

// Adds how many functions the program defines, how many call expressions it has, and how many of its calls are marked.
fn push_program(alloc: Global, line: &mut Vec<u8>, program: &Program) -> Result<(), OutOfMemory>
    ensures { OnOk result (line.new.items ≡ line.old.items ++ program_counts (program_of program.now)) }
{
    let marked = marked_count(alloc, program)?;
    push_count(alloc, line, b"functions ", u64::from(program.defined()))?;
    push_count(alloc, line, b" sites ", u64::from(program.sites()))?;
    push_count(alloc, line, b" marked ", u64::from(marked))
}

// Adds how many nodes the model has, and how many events the run makes.
fn push_run(alloc: Global, line: &mut Vec<u8>, audited: &Audited) -> Result<(), OutOfMemory>
    ensures { OnOk result (line.new.items ≡ line.old.items ++ run_counts audited.now.nodes (length audited.now.run.trace.items)) }
{
    push_count(alloc, line, b" nodes ", u64::from(audited.nodes))?;
    push_count(alloc, line, b" events ", audited.run.trace.len() as u64)?;
    push_bytes(line, b"\n")
}

/// The summary of a program and its audit.
pub fn summary_line(
    alloc: Global,
    program: &Program,
    audited: &Audited,
) -> Result<Vec<u8>, OutOfMemory>
    ensures { IfOk result (λ line. line.items ≡ counts_text (program_of program.now) audited.now.nodes (length audited.now.run.trace.items)) }
{
    let mut line = Vec::new(alloc);
    push_program(alloc, &mut line, program)?;
    push_run(alloc, &mut line, audited)?;
    Ok(line)
}
