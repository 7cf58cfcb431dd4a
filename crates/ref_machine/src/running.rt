ghost use Rattle.std.specs.Prelude.{◌≡◌, true, IfOk, drop};
ghost use Rattle.c_tree.specs.View.{program_of};
ghost use Rattle.c_meaning.specs.Runs.{run};
ghost use Rattle.c_meaning.specs.ProgramLanguages.{Callgraph, Stack};
ghost use Rattle.ref_machine.specs.Futures.{future, is_waiting, records_taken};
ghost use Rattle.ref_machine.specs.KeptTypes.{HasFunctionValues};
ghost use Rattle.ref_machine.specs.WholeRuns.{Follows, Happens, Waits, run_of};
ghost use Rattle.c_meaning.specs.Laws.{IsTypedRun};

use crate::whole::Run;
use crate::{Machine, Next, Pause};
use c_meaning::{callees_are_candidates, runs_raise_no_alarm, values_have_kinds};
use c_tree::Program;
use dm_base::OutOfMemory;
use std::alloc::Global;
use sys_table::SysResult;

/// Goes on to the next event, need of a recorded result, or end, as `Machine::advance` does, where the results from this number on are
/// left: the next of them is given where the machine waits for one.
pub fn advance_with(
    machine: &mut Machine,
    results: &[SysResult],
    taken: &mut usize,
) -> Result<Pause, OutOfMemory>
    requires { records_taken machine.old ≡ taken.old }
    ensures follows { IfOk result (λ pause. Follows (future machine.old (drop taken.old results.now)) pause (future machine.new (drop taken.new results.now))) }
    ensures taken { IfOk result (λ pause. records_taken machine.new ≡ taken.new) }
    ensures waits { IfOk result (λ pause. Waits (is_waiting machine.old) pause (is_waiting machine.new)) }
{
    if !machine.is_waiting() {
        let pause = machine.advance(None)?;
        return Ok(pause);
    }
    if *taken < results.len() {
        let given = &results[*taken];
        let pause = machine.advance(Some(given))?;
        *taken += 1;
        return Ok(pause);
    }
    let pause = machine.advance(None)?;
    Ok(pause)
}

// The same of a machine that waits for a result.
fn answered(
    machine: &mut Machine,
    results: &[SysResult],
    taken: &mut usize,
) -> Result<Next, OutOfMemory>
    requires taken { records_taken machine.old ≡ taken.old }
    requires waiting { is_waiting machine.old ≡ true }
    ensures happens { IfOk result (λ next. Happens (future machine.old (drop taken.old results.now)) next (future machine.new (drop taken.new results.now))) }
    ensures taken { IfOk result (λ next. records_taken machine.new ≡ taken.new) }
{
    let pause = advance_with(machine, results, taken)?;
    match pause {
        Pause::NeedResult => unreachable!(),
        Pause::Did(event) => Ok(Next::Event(event)),
        Pause::Ended(outcome) => Ok(Next::End(outcome)),
    }
}

/// Goes on to the next event of a run or to its end, where the results from this number on are left: the next of them is given
/// where the machine needs one. The error is that memory was refused; from then on each call answers so.
pub fn next_event(
    machine: &mut Machine,
    results: &[SysResult],
    taken: &mut usize,
) -> Result<Next, OutOfMemory>
    requires { records_taken machine.old ≡ taken.old }
    ensures happens { IfOk result (λ next. Happens (future machine.old (drop taken.old results.now)) next (future machine.new (drop taken.new results.now))) }
    ensures taken { IfOk result (λ next. records_taken machine.new ≡ taken.new) }
{
    let pause = advance_with(machine, results, taken)?;
    match pause {
        Pause::NeedResult => {
            let next = answered(machine, results, taken)?;
            Ok(next)
        }
        Pause::Did(event) => Ok(Next::Event(event)),
        Pause::Ended(outcome) => Ok(Next::End(outcome)),
    }
}

// The run of the program, event by event.
fn whole_run(
    alloc: Global,
    program: &Program,
    results: &[SysResult],
    turns: u32,
) -> Result<Run, OutOfMemory>
    ensures { IfOk result (λ found. run_of found ≡ run (program_of program.now) results.now turns) }
{
    let mut machine = Machine::start(alloc, program, turns)?;
    let mut trace = Vec::new(alloc);
    let mut taken = 0usize;
    'events: loop {
        let next = next_event(&mut machine, results, &mut taken)?;
        match next {
            Next::Event(event) => trace.push(event)?,
            Next::End(outcome) => return Ok(Run { outcome, trace }),
        }
    }
}

/// The run of the program with these recorded results and so many turns (C99 5.1.2.3): how it ended, and its events, in order.
/// Results that the run did not come to are left. However it ended, its trace is a word of the program's stack and of its
/// callgraph language (Wagner and Dean 2001), for null calls that the program makes itself are left aside there; each event can be recorded;
/// and no value of another kind than its type was met. The error is that memory was refused.
pub fn run(
    alloc: Global,
    program: &Program,
    results: &[SysResult],
    turns: u32,
) -> Result<Run, OutOfMemory>
    ensures run { IfOk result (λ found. run_of found ≡ run (program_of program.now) results.now turns) }
    ensures no_false_alarm { IfOk result (λ found. Stack (program_of program.now) found.trace.items × Callgraph (program_of program.now) found.trace.items) }
    ensures typed { IfOk result (λ found. IsTypedRun (run_of found)) }
    ensures function_values { HasFunctionValues (program_of program.now) results.now turns }
{
    runs_raise_no_alarm();
    values_have_kinds();
    callees_are_candidates();
    let _sites = program.sites();
    let found = whole_run(alloc, program, results, turns)?;
    Ok(found)
}
