ghost use Rattle.std.specs.Prelude.{◌≡◌, ◌<◌, [], ◌∷◌, ◌++◌, ◌^◌, decimal, IsTrue};
ghost use Rattle.line_text.specs.OneLine.{IsLine};
ghost use Rattle.line_text.specs.Reading.{Reads};
ghost use Rattle.line_text.specs.Words.{is_in_line};
ghost use Rattle.model_file.specs.Kinds.{HasKind, site_of};
ghost use Rattle.model_file.specs.Lines.{model_line, MayFollow};
ghost use Rattle.model_file.specs.ModelText.{function_line, IsSmall, IsSpelledFunction};

use crate::ModelVersion;
use crate::call_line::take_call_line;
use crate::function_line::take_function_line;
use crate::silent_line::take_silent_line;
use crate::sys_line::take_sys_line;
use crate::words::take_number;
use flow_model::{CallEdge, ModelFunction, SilentEdge, SysEdge};
use line_text::{Cursor, Miss};
use std::alloc::Global;

/// A line of a model after that of the nodes, but the last.
#[derive(Drop)]
pub enum ModelLine {
    Silent(SilentEdge),
    Sys(SysEdge),
    Call(CallEdge),
    Start(u32),
}

/// Which lines came last: those of silent edges, of system-call edges, or of call edges; and the last
/// edge among them, where there is one, of a call edge its site.
#[derive(Clone, Copy)]
pub enum Section {
    Silent(Option<SilentEdge>),
    Sys(Option<SysEdge>),
    Call(Option<u32>),
}

/// The line of a function that the whole of this one is.
pub fn read_function_line(alloc: Global, line: &[u8]) -> Result<ModelFunction, Miss>
    requires { IsLine line.now }
    ensures { Reads IsSpelledFunction function_line line.now [] result }
{
    let mut cursor = Cursor { rest: line };
    take_function_line(alloc, &mut cursor)
}

/// The number in the line that is the word, the number, and nothing else.
pub fn read_number_line(line: &[u8], word: &[u8]) -> Result<u32, Miss>
    requires line { IsLine line.now }
    requires word { IsTrue (is_in_line (word.now ++ 32 ∷ [])) }
    ensures { Reads IsSmall (λ n. word.now ++ decimal n ++ 10 ∷ []) line.now [] result }
{
    let mut cursor = Cursor { rest: line };
    take_word_number(&mut cursor, word)
}

// Takes the word, a number, and a line feed.
pub(crate) fn take_word_number(cursor: &mut Cursor, word: &[u8]) -> Result<u32, Miss>
    requires { IsTrue (is_in_line (word.now ++ 32 ∷ [])) }
    ensures { Reads IsSmall (λ n. word.now ++ decimal n ++ 10 ∷ []) cursor.old.rest.now cursor.new.rest.now result }
{
    cursor.take(word)?;
    take_number(cursor, 0, b'\n')
}

/// The line that the whole of this one is, of those that may follow the section's last one.
pub fn read_model_line(
    alloc: Global,
    version: ModelVersion,
    section: &Section,
    line: &[u8],
) -> Result<ModelLine, Miss>
    requires { IsLine line.now }
    ensures { Reads (MayFollow version section.now) (model_line version) line.now [] result }
{
    let mut cursor = Cursor { rest: line };
    take_model_line(alloc, version, section, &mut cursor)
}

// Takes a line of those that may follow.
fn take_model_line(
    alloc: Global,
    version: ModelVersion,
    section: &Section,
    cursor: &mut Cursor,
) -> Result<ModelLine, Miss>
    ensures { Reads (MayFollow version section.now) (model_line version)
        cursor.old.rest.now cursor.new.rest.now result }
{
    match kind_of(cursor.rest) {
        Kind::Silent => take_silent(version, section, cursor),
        Kind::Sys => take_sys(version, section, cursor),
        Kind::Call => take_call(alloc, version, section, cursor),
        Kind::Start => Ok(ModelLine::Start(take_word_number(cursor, b"start ")?)),
        Kind::Open => Err(Miss::Short),
    }
}

// What the first bytes say of a line.
#[derive(Clone, Copy)]
enum Kind {
    // It is one of a silent edge.
    Silent,
    // It is one of a system-call edge.
    Sys,
    // It is one of a call edge.
    Call,
    // It is that of the start, or none.
    Start,
    // It may be one of a system-call edge or that of the start.
    Open,
}

// The kind that the first bytes have.
fn kind_of(text: &[u8]) -> Kind
    ensures { HasKind result text.now }
{
    let [first, rest @ ..] = text else {
        return Kind::Open;
    };
    if *first == b'e' {
        return Kind::Silent;
    }
    if *first == b'c' {
        return Kind::Call;
    }
    let [second, ..] = rest else {
        return if *first == b's' {
            Kind::Open
        } else {
            Kind::Start
        };
    };
    if *first == b's' && *second == b' ' {
        Kind::Sys
    } else {
        Kind::Start
    }
}

// Takes a line of a silent edge, where one may follow.
fn take_silent(
    version: ModelVersion,
    section: &Section,
    cursor: &mut Cursor,
) -> Result<ModelLine, Miss>
    requires { HasKind Kind.Silent cursor.old.rest.now }
    ensures { Reads (MayFollow version section.now) (model_line version)
        cursor.old.rest.now cursor.new.rest.now result }
{
    match section {
        Section::Silent(last) => Ok(ModelLine::Silent(take_silent_line(cursor, *last)?)),
        Section::Sys(_) => Err(Miss::Wrong),
        Section::Call(_) => Err(Miss::Wrong),
    }
}

// Takes a line of a system-call edge, where one may follow.
fn take_sys(
    version: ModelVersion,
    section: &Section,
    cursor: &mut Cursor,
) -> Result<ModelLine, Miss>
    requires { HasKind Kind.Sys cursor.old.rest.now }
    ensures { Reads (MayFollow version section.now) (model_line version)
        cursor.old.rest.now cursor.new.rest.now result }
{
    match section {
        Section::Silent(_) => Ok(ModelLine::Sys(take_sys_line(cursor, version, &None)?)),
        Section::Sys(last) => Ok(ModelLine::Sys(take_sys_line(cursor, version, last)?)),
        Section::Call(_) => Err(Miss::Wrong),
    }
}

// Takes a line of a call edge.
fn take_call(
    alloc: Global,
    version: ModelVersion,
    section: &Section,
    cursor: &mut Cursor,
) -> Result<ModelLine, Miss>
    requires { HasKind Kind.Call cursor.old.rest.now }
    ensures { Reads (MayFollow version section.now) (model_line version)
        cursor.old.rest.now cursor.new.rest.now result }
{
    let last = last_site(section);
    Ok(ModelLine::Call(take_call_line(alloc, cursor, last)?))
}

// The last site of the section.
fn last_site(section: &Section) -> Option<u32>
    ensures { result ≡ site_of section.now }
{
    match section {
        Section::Silent(_) => None,
        Section::Sys(_) => None,
        Section::Call(last) => *last,
    }
}
