ghost use Rattle.std.specs.Prelude.{◌≡◌, ◌<◌, IfOk, IfSome, IfNone, Contains, length, map, slice_get, Some};
ghost use Rattle.c_tree.specs.View.{program_of};
ghost use Rattle.fleet.specs.Going.{IsStarted, numbers};

use crate::process::{Process, Stage};
use c_tree::Program;
use dm_base::OutOfMemory;
use ref_machine::Machine;
use std::alloc::Global;
use sys_table::SysResult;

// The place of the process with this number, or None where there is none.
pub fn place_of(processes: &[Process], pid: u32) -> Option<usize>
    ensures some { IfSome result (λ place. (place < length processes.now) × (slice_get (numbers processes.now) place ≡ Some pid)) }
    ensures none { IfNone result (Contains (numbers processes.now) pid → ⊥) }
{
    for (place, process) in processes.iter().enumerate() {
        if process.pid == pid {
            return Some(place);
        }
    }
    None
}

// A process that begins the run of this program.
pub fn start<'p>(
    alloc: Global,
    pid: u32,
    group: u32,
    program: &'p Program,
    results: &'p [SysResult],
    turns: u32,
) -> Result<Process<'p>, OutOfMemory>
    ensures { IfOk result (λ p. IsStarted pid group (program_of program.now) results.now turns p) }
{
    let machine = Machine::start(alloc, program, turns)?;
    Ok(Process {
        pid,
        group,
        machine,
        results,
        taken: 0,
        stage: Stage::Open,
    })
}
