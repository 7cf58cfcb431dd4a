ghost use Rattle.std.specs.Prelude.{◌≡◌, ◌↔◌, All, Contains, IfOk, OnOk, IsTrue};
ghost use Rattle.std.specs.List.{AllZip};
ghost use Rattle.dm_base.specs.declared.event.Event.{Event};
ghost use Rattle.dm_base.specs.Fits.{Fits};
ghost use Rattle.report.specs.Trials.{AreFilled, AreTrials, FillsEntry, HasTrial};
ghost use Rattle.sys_table.specs.Table.{FitsArgument, FitsEntry, IsRecorded, IsRight};

use dm_base::{Arg, ArgList, Bytes, Event, OutOfMemory, Pattern, SysName, fits};
use flow_model::{Model, SysEdge};
use std::alloc::Global;
use sys_table::{ArgKind, argument_kinds};

/// Events that a trace may record: for each system-call edge of the model, one that fits it.
pub fn trials_of(alloc: Global, model: &Model) -> Result<Vec<Event>, OutOfMemory>
    ensures { IfOk result (λ trials. AreTrials model.now trials.items) }
{
    let mut trials = Vec::new(alloc);
    for edge in edges_of(model) {
        add_trial(alloc, &mut trials, edge)?;
    }
    Ok(trials)
}

// The system-call edges of the model, whose patterns are right.
fn edges_of(model: &Model) -> &[SysEdge]
    ensures edges { result.now ≡ model.now.sys }
    ensures right { All (λ e. IsRight e.name e.args) model.now.sys }
{
    match model.nodes() {
        0 => &[],
        _ => model.sys(),
    }
}

// Adds an event that fits the edge, where none of the others does.
fn add_trial(alloc: Global, trials: &mut Vec<Event>, edge: &SysEdge) -> Result<(), OutOfMemory>
    requires { IsRight edge.now.name edge.now.args }
    ensures has { OnOk result (HasTrial trials.new.items edge.now) }
    ensures kept { OnOk result ((e : Event) → Contains trials.old.items e → Contains trials.new.items e) }
    ensures recorded { OnOk result (((e : Event) → Contains trials.old.items e → IsRecorded e) → (e : Event) → Contains trials.new.items e → IsRecorded e) }
{
    if has_trial(trials, edge) {
        return Ok(());
    }
    trials.push(event_of(alloc, edge.name, &edge.args)?)?;
    Ok(())
}

// Whether some event fits the edge.
fn has_trial(trials: &[Event], edge: &SysEdge) -> bool
    ensures { IsTrue result ↔ HasTrial trials.now edge.now }
{
    for event in trials {
        if fits(edge.name, &edge.args, event) {
            return true;
        }
    }
    false
}

// An event of the system call that fits the pattern.
fn event_of(alloc: Global, name: SysName, pattern: &Pattern) -> Result<Event, OutOfMemory>
    requires { IsRight name pattern.now }
    ensures fits { IfOk result (λ event. Fits name pattern.now event) }
    ensures recorded { IfOk result (λ event. IsRecorded event) }
{
    let args = arguments_of(alloc, argument_kinds(name), pattern)?;
    Ok(Event::Sys {
        name,
        args,
        result: 0,
    })
}

// Arguments of these kinds that fit the pattern.
fn arguments_of(alloc: Global, kinds: &[ArgKind], pattern: &Pattern) -> Result<ArgList, OutOfMemory>
    requires { AllZip FitsEntry kinds.now pattern.now }
    ensures { IfOk result (λ arguments. AreFilled kinds.now pattern.now arguments) }
{
    let mut arguments = ArgList::new();
    for i in 0..pattern.count() {
        arguments.push(argument_of(alloc, kinds[i as usize], pattern.get(i))?);
    }
    Ok(arguments)
}

// An argument of this kind that is the number of the entry, where it has one.
fn argument_of(alloc: Global, kind: ArgKind, entry: Option<i64>) -> Result<Arg, OutOfMemory>
    requires { FitsEntry kind entry }
    ensures kind { IfOk result (λ argument. FitsArgument kind argument) }
    ensures entry { IfOk result (λ argument. FillsEntry entry argument) }
{
    match entry {
        Some(number) => Ok(Arg::Int(number)),
        None => any_argument(alloc, kind),
    }
}

// An argument of this kind.
fn any_argument(alloc: Global, kind: ArgKind) -> Result<Arg, OutOfMemory>
    ensures { IfOk result (λ argument. FitsArgument kind argument) }
{
    match kind {
        ArgKind::Signed | ArgKind::Unsigned => Ok(Arg::Int(0)),
        ArgKind::Bytes => Ok(Arg::Bytes(Bytes::of(alloc, b"")?)),
    }
}
