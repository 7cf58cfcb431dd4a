ghost use Rattle.std.specs.Prelude.{◌≡◌, ◌≤◌, ◌<◌, ◌++◌, ◌∷◌, [], All, length, slice_get, Some, IfOk, IfErr, IfSome, OnOk};
ghost use Rattle.c_rules.specs.Accepted.{IsAcceptedAs};
ghost use Rattle.c_tree.specs.View.{program_of};
ghost use Rattle.dm_base.specs.declared.mode.Mode.TheVariants.{Instrumented};
ghost use Rattle.dm_io.specs.Store.{file_at, IsMissing};
ghost use Rattle.fleet_schedule.specs.ScheduleText.{IsRightLine};
ghost use Rattle.sys_table.specs.ResultsText.{AreResultsWithin};
ghost use Rattle.tool_files.specs.Inputs.{RefusesModel};
ghost use Rattle.tool_fleet.specs.declared.inputs.GroupModel.{GroupModel as GroupModel'};
ghost use Rattle.tool_fleet.specs.Inputs.{HasGroup, IsGroupModel, LacksOthers, RefusesOthers};
ghost use Rattle.tool_frame.specs.Stop.{Stops};
ghost use Rattle.tool_steps.specs.Sources.{RefusesSource};

use crate::inputs::GroupModel;
use crate::names::name_of;
use c_tree::Program;
use dm_base::{Bytes, Mode, OutOfMemory};
use dm_io::Store;
use fleet_schedule::Line;
use flow_model::Model;
use std::alloc::Global;
use sys_table::SysResult;
use tool_files::model_in;
use tool_frame::Stop;
use tool_steps::{Source, results_in, source_in};

/// What a process has beside its program: the number of its group, and its recorded results.
#[derive(Drop)]
pub struct Others {
    pub group: u32,
    pub results: Vec<SysResult>,
}

// The program of a source.
fn program_of_source(source: Source) -> Program
    ensures { result ≡ source.program }
{
    let Source {
        unit: _unit,
        program,
    } = source;
    program
}

/// The program of the C text in a file, in the mode of instrumented units.
pub fn program_in<S: Store>(alloc: Global, store: &mut S, name: &str) -> Result<Program, Stop>
    ensures read { IfOk result (λ program. IfSome (S.files store.old) (λ told. IsAcceptedAs (file_at told name.now) Instrumented (program_of program))) }
    ensures stop { IfErr result (λ stop. Stops stop (RefusesSource Instrumented (S.files store.old) name.now) (IsMissing (S.files store.old) name.now) (S.faults store.old) (S.faults store.new)) }
    ensures same { S.files store.new ≡ S.files store.old }
    ensures never_falls { S.faults store.old ≤ S.faults store.new }
{
    let source = source_in(alloc, store, name, Mode::Instrumented)?;
    Ok(program_of_source(source))
}

// The number of the group whose model has this name and this bound, where there is one.
fn group_with(groups: &[GroupModel], name: &[u8], bound: u32) -> Option<u32>
    requires { length groups.now ≤ 64 }
    ensures { IfSome result (λ place. (g : GroupModel') × (slice_get groups.now place ≡ Some g) × (g.name ≡ name.now) × (g.bound ≡ bound)) }
{
    for (place, group) in groups.iter().enumerate() {
        if group.bound == bound && group.name.as_slice() == name {
            return Some(place as u32);
        }
    }
    None
}

// Adds a group, and gives its number.
fn add_group(
    alloc: Global,
    groups: &mut Vec<GroupModel>,
    name: &[u8],
    model: Model,
    bound: u32,
) -> Result<u32, OutOfMemory>
    requires { length groups.old.items < 64 }
    ensures number { IfOk result (λ number. number ≡ length groups.old.items) }
    ensures added { OnOk result (groups.new.items ≡ groups.old.items ++ record { name = name.now; model = model; bound = bound } ∷ []) }
{
    let number = groups.len() as u32;
    let name = Bytes::of(alloc, name)?;
    groups.push(GroupModel { name, model, bound })?;
    Ok(number)
}

// The number of the group of a line, whose model is read where no group has it and the bound.
fn group_in<S: Store>(
    alloc: Global,
    store: &mut S,
    line: &Line,
    groups: &mut Vec<GroupModel>,
) -> Result<u32, Stop>
    requires line { IsRightLine line.now }
    requires few { length groups.old.items < 64 }
    requires models { All (IsGroupModel (S.files store.old)) groups.old.items }
    ensures found { IfOk result (λ place. HasGroup (S.files store.old) line.now groups.old.items groups.new.items place) }
    ensures stop { IfErr result (λ stop. Stops stop (RefusesModel (S.files store.old) line.now.model) (IsMissing (S.files store.old) line.now.model) (S.faults store.old) (S.faults store.new)) }
    ensures same { S.files store.new ≡ S.files store.old }
    ensures never_falls { S.faults store.old ≤ S.faults store.new }
{
    match group_with(groups, line.model.as_slice(), line.bound) {
        Some(place) => return Ok(place),
        None => {}
    }
    let model = model_in(alloc, store, name_of(&line.model))?;
    let number = add_group(alloc, groups, line.model.as_slice(), model, line.bound)?;
    Ok(number)
}

/// The group and the results of a line: its model is read, where no group has it with the bound, and then its results.
pub fn others_in<S: Store>(
    alloc: Global,
    store: &mut S,
    line: &Line,
    groups: &mut Vec<GroupModel>,
) -> Result<Others, Stop>
    requires line { IsRightLine line.now }
    requires few { length groups.old.items < 64 }
    requires models { All (IsGroupModel (S.files store.old)) groups.old.items }
    ensures group { IfOk result (λ others. HasGroup (S.files store.old) line.now groups.old.items groups.new.items others.group) }
    ensures results { IfOk result (λ others. IfSome (S.files store.old) (λ told. AreResultsWithin (file_at told line.now.results) others.results.items)) }
    ensures stop { IfErr result (λ stop. Stops stop (RefusesOthers (S.files store.old) line.now) (LacksOthers (S.files store.old) line.now) (S.faults store.old) (S.faults store.new)) }
    ensures same { S.files store.new ≡ S.files store.old }
    ensures never_falls { S.faults store.old ≤ S.faults store.new }
{
    let group = group_in(alloc, store, line, groups)?;
    let results = results_in(alloc, store, name_of(&line.results))?;
    Ok(Others { group, results })
}
