ghost use Rattle.std.specs.Prelude.{◌≡◌, ◌≤◌, ◌<◌, ◌^◌, IfOk};
ghost use Rattle.c_meaning.specs.Runs.{run};
ghost use Rattle.c_tree.specs.View.{program_of};
ghost use Rattle.tool_steps.specs.WholeRuns.{run_of};

use c_meaning::values_have_kinds;
use c_tree::Program;
use dm_base::OutOfMemory;
use flow_model::Model;
use std::alloc::Global;
use sys_table::SysResult;
use tool_monitors::Listener;
use tool_steps::{Machine, Next, Run, next_event};

/// A run, and the monitors that heard it.
#[derive(Drop)]
pub struct Followed<L: Listener> {
    pub run: Run,
    pub monitors: L,
}

/// Runs the program with these recorded results and so many turns, and has the monitors of the model hear each event as soon as it is
/// made.
pub fn followed_run<L: Listener>(
    alloc: Global,
    program: &Program,
    records: &[SysResult],
    turns: u32,
    model: &Model,
    bound: u32,
) -> Result<Followed<L>, OutOfMemory>
    requires { (1 ≤ bound) × (bound < 2 ^ 16) }
    ensures run { IfOk result (λ followed. run_of followed.run ≡ run (program_of program.now) records.now turns) }
    ensures heard { IfOk result (λ followed. L.heard followed.monitors model.now bound followed.run.trace.items) }
{
    values_have_kinds();
    let _sites = program.sites();
    let mut machine = Machine::start(alloc, program, turns)?;
    let mut monitors = L::begin(alloc, model, bound)?;
    let mut trace = Vec::new(alloc);
    let mut taken = 0usize;
    'events: loop {
        let next = next_event(&mut machine, records, &mut taken)?;
        match next {
            Next::Event(event) => {
                let _before = trace.as_slice().len();
                monitors.hear(alloc, model, &event)?;
                trace.push(event)?;
            }
            Next::End(outcome) => {
                let run = Run { outcome, trace };
                return Ok(Followed { run, monitors });
            }
        }
    }
}
