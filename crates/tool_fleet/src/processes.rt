ghost use Rattle.std.specs.Prelude.{◌≡◌, ◌≤◌, ◌<◌, ◌++◌, ◌∷◌, [], All, length, IfOk, IfErr, OnOk};
ghost use Rattle.fleet_schedule.specs.ScheduleText.{IsRightLine};
ghost use Rattle.tool_fleet.specs.Fleet.{LacksForProcess, LacksForProcesses, RefusesProcess, RefusesProcesses};
ghost use Rattle.tool_fleet.specs.Inputs.{AreRead, IsGroupModel, ReadsNext, ReadsProcess};
ghost use Rattle.tool_frame.specs.Stop.{Stops};

use crate::inputs::{GroupModel, Inputs, ProcessInput};
use crate::names::name_of;
use crate::reading::{Others, others_in, program_in};
use c_tree::Program;
use dm_base::OutOfMemory;
use dm_io::Store;
use fleet_schedule::Line;
use std::alloc::Global;
use tool_frame::Stop;

// Lets go of a program.
fn discard(_program: Program) {}

// The process of a line, with its program and the rest.
fn process_of(line: &Line, program: Program, others: Others) -> ProcessInput
    ensures { result ≡ record { pid = line.now.pid; group = others.group; program = program; results = others.results; turns = line.now.turns } }
{
    let Others { group, results } = others;
    ProcessInput {
        pid: line.pid,
        group,
        program,
        results,
        turns: line.turns,
    }
}

// Reads the files of a line's process.
fn read_process<S: Store>(
    alloc: Global,
    store: &mut S,
    line: &Line,
    groups: &mut Vec<GroupModel>,
) -> Result<ProcessInput, Stop>
    requires line { IsRightLine line.now }
    requires few { length groups.old.items < 64 }
    requires models { All (IsGroupModel (S.files store.old)) groups.old.items }
    ensures read { IfOk result (λ process. ReadsProcess (S.files store.old) line.now groups.old.items groups.new.items process) }
    ensures stop { IfErr result (λ stop. Stops stop (RefusesProcess (S.files store.old) line.now) (LacksForProcess (S.files store.old) line.now) (S.faults store.old) (S.faults store.new)) }
    ensures same { S.files store.new ≡ S.files store.old }
    ensures never_falls { S.faults store.old ≤ S.faults store.new }
{
    let program = program_in(alloc, store, name_of(&line.file))?;
    match others_in(alloc, store, line, groups) {
        Ok(others) => Ok(process_of(line, program, others)),
        Err(stop) => {
            discard(program);
            Err(stop)
        }
    }
}

// Adds a process.
fn add_process(processes: &mut Vec<ProcessInput>, process: ProcessInput) -> Result<(), OutOfMemory>
    ensures { OnOk result (processes.new.items ≡ processes.old.items ++ process ∷ []) }
{
    processes.push(process)?;
    Ok(())
}

// Reads the files of the next line's process.
fn read_next<S: Store>(
    alloc: Global,
    store: &mut S,
    line: &Line,
    inputs: &mut Inputs,
) -> Result<(), Stop>
    requires line { IsRightLine line.now }
    requires few { length inputs.old.groups.items < 64 }
    requires models { All (IsGroupModel (S.files store.old)) inputs.old.groups.items }
    ensures read { OnOk result (ReadsNext (S.files store.old) line.now inputs.old inputs.new) }
    ensures stop { IfErr result (λ stop. Stops stop (RefusesProcess (S.files store.old) line.now) (LacksForProcess (S.files store.old) line.now) (S.faults store.old) (S.faults store.new)) }
    ensures same { S.files store.new ≡ S.files store.old }
    ensures never_falls { S.faults store.old ≤ S.faults store.new }
{
    let process = read_process(alloc, store, line, &mut inputs.groups)?;
    add_process(&mut inputs.processes, process)?;
    Ok(())
}

/// Reads the files of the processes of these lines in order: of each its program, its model where no earlier line has the same model and
/// bound, and its results.
///
/// # Errors
///
/// `Source`, `Model` or `Record` where a file is refused, `Read` where a read failed or a file isn't there, and `OutOfMemory`.
pub fn inputs_in<S: Store>(alloc: Global, store: &mut S, lines: &[Line]) -> Result<Inputs, Stop>
    requires right { All IsRightLine lines.now }
    requires few { length lines.now ≤ 64 }
    ensures read { IfOk result (λ inputs. AreRead (S.files store.old) lines.now inputs.groups.items inputs.processes.items) }
    ensures stop { IfErr result (λ stop. Stops stop (RefusesProcesses (S.files store.old) lines.now) (LacksForProcesses (S.files store.old) lines.now) (S.faults store.old) (S.faults store.new)) }
    ensures same { S.files store.new ≡ S.files store.old }
    ensures never_falls { S.faults store.old ≤ S.faults store.new }
{
    let mut inputs = Inputs {
        processes: Vec::new(alloc),
        groups: Vec::new(alloc),
    };
    for line in lines {
        read_next(alloc, store, line, &mut inputs)?;
    }
    Ok(inputs)
}
