ghost use Rattle.std.specs.Prelude.{◌≡◌, ◌+◌, ◌<◌, ◌≤◌, ℕ, [], length, drop, None, IfOk, IfErr, IfNone, OnOk};
ghost use Rattle.flow_model.specs.Built.{graph_of_records};
ghost use Rattle.model_file.specs.declared.lines.Section.TheVariants.{Silent};
ghost use Rattle.model_file.specs.declared.version.ModelVersion.{ModelVersion};
ghost use Rattle.model_file.specs.Progress.{IsPlace, IsAt, IsMore, IsStop};
ghost use Rattle.model_file.specs.Refusal.{longest};
ghost use Rattle.model_file.specs.States.{Fixed, AtFunctions, AtEdges, AtEnd, AfterEdge, IsLast, IsReadAs, section_after, with_line, start_of};

use crate::lines::{ModelLine, Section};
use crate::place::{Place, next_line};
use crate::single::{take_count, take_end, take_function, take_line, take_nodes, take_version};
use crate::{ModelError, ModelVersion};
use dm_base::OutOfMemory;
use flow_model::ModelBuilder;
use std::alloc::Global;

/// What a text of a model says: the functions and the edges, the number of nodes, and the start
/// function. They may break the rules of models.
#[derive(Drop)]
pub struct Draft {
    pub builder: ModelBuilder,
    pub nodes: u32,
    pub start: u32,
}

/// What the text says; the error is the first line, from the front, that is bad, or that the text is
/// cut short.
pub fn read_draft(alloc: Global, text: &[u8]) -> Result<Draft, ModelError>
    requires { length text.now ≤ longest }
    ensures read { IfOk result (λ draft. (v : ModelVersion) × IsReadAs text.now v (graph_of_records draft.builder draft.nodes draft.start)) }
    ensures stopped { IfErr result (λ error. IsStop error text.now) }
{
    let mut place = Place { byte: 0, line: 0 };
    let version = take_version(text, &mut place)?;
    let count = take_count(text, &mut place)?;
    let mut builder = ModelBuilder::new(alloc)?;
    read_functions(alloc, text, &mut place, count, &mut builder)?;
    let nodes = take_nodes(text, &mut place)?;
    let start = read_edges(alloc, version, text, &mut place, &mut builder)?;
    take_end(text, &mut place)?;
    take_nothing(text, &mut place)?;
    Ok(Draft {
        builder,
        nodes,
        start,
    })
}

// Reads the lines of so many functions.
fn read_functions(
    alloc: Global,
    text: &[u8],
    place: &mut Place,
    count: u32,
    builder: &mut ModelBuilder,
) -> Result<(), ModelError>
    requires place { IsPlace text.now place.old }
    requires fresh { builder.old.functions ≡ [] }
    ensures place { IsPlace text.now place.new }
    ensures edges { OnOk result (builder.new ≡ record builder.old { functions = builder.new.functions }) }
    ensures all { OnOk result (length builder.new.functions ≡ count) }
    ensures read { (v : ModelVersion) → IsAt (Fixed v (AtFunctions v count [])) text.now place.old → OnOk result (IsAt (Fixed v (AtFunctions v count builder.new.functions)) text.now place.new) }
    ensures stopped { (v : ModelVersion) → IsAt (Fixed v (AtFunctions v count [])) text.now place.old → IfErr result (λ error. IsStop error text.now) }
{
    for _done in 0..count {
        let one = take_function(alloc, text, place)?;
        builder.function(one)?;
    }
    Ok(())
}

// Reads the lines of the edges, and that of the start function.
fn read_edges(
    alloc: Global,
    version: ModelVersion,
    text: &[u8],
    place: &mut Place,
    builder: &mut ModelBuilder,
) -> Result<u32, ModelError>
    requires place { IsPlace text.now place.old }
    requires fresh { IsLast (Silent None) builder.old }
    ensures place { IsPlace text.now place.new }
    ensures read { (n : ℕ) → IsAt (Fixed version (AtEdges version builder.old n (Silent None))) text.now place.old → IfOk result (λ start. IsAt (Fixed version (AtEnd version builder.new n start)) text.now place.new) }
    ensures stopped { (n : ℕ) → IsAt (Fixed version (AtEdges version builder.old n (Silent None))) text.now place.old → IfErr result (λ error. IsStop error text.now) }
{
    let mut section = Section::Silent(None);
    loop {
        let found = read_edge(alloc, version, text, place, builder, &mut section)?;
        if let Some(start) = found {
            return Ok(start);
        }
    }
}

// Reads the line of an edge, or that of the start function, which it answers.
fn read_edge(
    alloc: Global,
    version: ModelVersion,
    text: &[u8],
    place: &mut Place,
    builder: &mut ModelBuilder,
    section: &mut Section,
) -> Result<Option<u32>, ModelError>
    requires place { IsPlace text.now place.old }
    requires last { IsLast section.old builder.old }
    ensures place { IsPlace text.now place.new }
    ensures further { OnOk result (place.old.byte < place.new.byte) }
    ensures last { IfOk result (λ found. IfNone found (IsLast section.new builder.new)) }
    ensures read { (n : ℕ) → IsAt (Fixed version (AtEdges version builder.old n section.old)) text.now place.old → IfOk result (λ found. IsAt (Fixed version (AfterEdge version builder.new n section.new found)) text.now place.new) }
    ensures stopped { (n : ℕ) → IsAt (Fixed version (AtEdges version builder.old n section.old)) text.now place.old → IfErr result (λ error. IsStop error text.now) }
{
    let line = take_line(alloc, version, section, text, place)?;
    *section = section_after(section, &line);
    let found = add_line(builder, line)?;
    Ok(found)
}

// The section in which the line stands; for that of the start function, the one before it.
fn section_after(section: &Section, line: &ModelLine) -> Section
    ensures { result ≡ section_after section.now line.now }
{
    match line {
        ModelLine::Silent(edge) => Section::Silent(Some(*edge)),
        ModelLine::Sys(edge) => Section::Sys(Some(*edge)),
        ModelLine::Call(call) => Section::Call(Some(call.site())),
        ModelLine::Start(_) => *section,
    }
}

// Adds the edge of the line, or answers its start function.
fn add_line(builder: &mut ModelBuilder, line: ModelLine) -> Result<Option<u32>, OutOfMemory>
    ensures added { OnOk result (builder.new ≡ with_line line builder.old) }
    ensures start { IfOk result (λ found. found ≡ start_of line) }
{
    match line {
        ModelLine::Silent(edge) => {
            builder.silent(edge)?;
            Ok(None)
        }
        ModelLine::Sys(edge) => {
            builder.sys(edge)?;
            Ok(None)
        }
        ModelLine::Call(call) => {
            builder.call(call)?;
            Ok(None)
        }
        ModelLine::Start(start) => Ok(Some(start)),
    }
}

// Sees that no line follows.
fn take_nothing(text: &[u8], place: &mut Place) -> Result<(), ModelError>
    requires { IsPlace text.now place.old }
    ensures none { OnOk result (drop place.old.byte text.now ≡ []) }
    ensures more { IfErr result (λ error. IsMore text.now place.old place.new error) }
{
    match next_line(text, place) {
        None => Ok(()),
        Some(_) => Err(ModelError::BadLine(place.line)),
    }
}
