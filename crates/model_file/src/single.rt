ghost use Rattle.std.specs.Prelude.{◌≡◌, ◌++◌, [], ◌∷◌, decimal, codes, IsTrue};
ghost use Rattle.line_text.specs.OneLine.{IsLine};
ghost use Rattle.line_text.specs.Reading.{Reads};
ghost use Rattle.line_text.specs.Words.{is_in_line};
ghost use Rattle.model_file.specs.Lines.{model_line, MayFollow};
ghost use Rattle.model_file.specs.ModelText.{head_line, functions_line, function_line, nodes_line, IsSmall, IsSpelledFunction};
ghost use Rattle.model_file.specs.Progress.{IsPlace, Takes, refusal_of, is_ended};

use crate::lines::{ModelLine, Section, read_function_line, read_model_line, read_number_line};
use crate::place::{Place, next_line};
use crate::{ModelError, ModelVersion};
use flow_model::ModelFunction;
use line_text::{Cursor, Miss};
use std::alloc::Global;

// Each function here reads the line after the place. Where it is none of those that are wanted, it is
// a bad line; where the text ends before the line does, the text is cut short.

/// The version.
pub fn take_version(text: &[u8], place: &mut Place) -> Result<ModelVersion, ModelError>
    requires { IsPlace text.now place.old }
    ensures place { IsPlace text.now place.new }
    ensures taken { Takes (λ _. Unit {0}) head_line text.now place.old place.new result }
{
    let Some(line) = next_line(text, place) else {
        return Err(ModelError::Truncated);
    };
    match read_version_line(line) {
        Ok(version) => Ok(version),
        Err(miss) => Err(refusal(miss, place.line)),
    }
}

/// The number of functions.
pub fn take_count(text: &[u8], place: &mut Place) -> Result<u32, ModelError>
    requires { IsPlace text.now place.old }
    ensures place { IsPlace text.now place.new }
    ensures taken { Takes IsSmall functions_line text.now place.old place.new result }
{
    let Some(line) = next_line(text, place) else {
        return Err(ModelError::Truncated);
    };
    match read_number_line(line, b"functions ") {
        Ok(count) => Ok(count),
        Err(miss) => Err(refusal(miss, place.line)),
    }
}

/// A function.
pub fn take_function(
    alloc: Global,
    text: &[u8],
    place: &mut Place,
) -> Result<ModelFunction, ModelError>
    requires { IsPlace text.now place.old }
    ensures place { IsPlace text.now place.new }
    ensures taken { Takes IsSpelledFunction function_line text.now place.old place.new result }
{
    let Some(line) = next_line(text, place) else {
        return Err(ModelError::Truncated);
    };
    match read_function_line(alloc, line) {
        Ok(one) => Ok(one),
        Err(miss) => Err(refusal(miss, place.line)),
    }
}

/// The number of nodes.
pub fn take_nodes(text: &[u8], place: &mut Place) -> Result<u32, ModelError>
    requires { IsPlace text.now place.old }
    ensures place { IsPlace text.now place.new }
    ensures taken { Takes IsSmall nodes_line text.now place.old place.new result }
{
    let Some(line) = next_line(text, place) else {
        return Err(ModelError::Truncated);
    };
    match read_number_line(line, b"nodes ") {
        Ok(nodes) => Ok(nodes),
        Err(miss) => Err(refusal(miss, place.line)),
    }
}

/// A line of those that may follow the section's last one.
pub fn take_line(
    alloc: Global,
    version: ModelVersion,
    section: &Section,
    text: &[u8],
    place: &mut Place,
) -> Result<ModelLine, ModelError>
    requires { IsPlace text.now place.old }
    ensures place { IsPlace text.now place.new }
    ensures taken { Takes (MayFollow version section.now) (model_line version) text.now place.old place.new result }
{
    let Some(line) = next_line(text, place) else {
        return Err(ModelError::Truncated);
    };
    match read_model_line(alloc, version, section, line) {
        Ok(read) => Ok(read),
        Err(miss) => Err(refusal(miss, place.line)),
    }
}

/// The end.
pub fn take_end(text: &[u8], place: &mut Place) -> Result<(), ModelError>
    requires { IsPlace text.now place.old }
    ensures place { IsPlace text.now place.new }
    ensures taken { Takes (λ _. Unit {0}) (λ _. codes "end\n") text.now place.old place.new result }
{
    let Some(line) = next_line(text, place) else {
        return Err(ModelError::Truncated);
    };
    match read_word_line(line, b"end\n") {
        Ok(()) => Ok(()),
        Err(miss) => Err(refusal(miss, place.line)),
    }
}

// Why the text is refused where nothing was read of the line with this number.
fn refusal(miss: Miss, line: u32) -> ModelError
    ensures { result ≡ refusal_of miss line }
{
    match miss {
        Miss::OutOfMemory => ModelError::OutOfMemory,
        Miss::Short => ModelError::Truncated,
        Miss::Wrong => ModelError::BadLine(line),
    }
}

// The version whose first line the whole of this one is.
fn read_version_line(line: &[u8]) -> Result<ModelVersion, Miss>
    requires { IsLine line.now }
    ensures { Reads (λ _. Unit {0}) head_line line.now [] result }
{
    match read_word_line(line, b"dyckmon-model 1\n") {
        Ok(()) => return Ok(ModelVersion::One),
        Err(Miss::OutOfMemory) => return Err(Miss::OutOfMemory),
        Err(Miss::Short) => return Err(Miss::Short),
        Err(Miss::Wrong) => {}
    }
    match read_word_line(line, b"dyckmon-model 2\n") {
        Ok(()) => Ok(ModelVersion::Two),
        Err(miss) => Err(miss),
    }
}

// Whether the whole line is this one.
fn read_word_line(line: &[u8], word: &[u8]) -> Result<(), Miss>
    requires line { IsLine line.now }
    requires word { IsTrue (is_in_line word.now) }
    requires ended { IsTrue (is_ended word.now) }
    ensures { Reads (λ _. Unit {0}) (λ _. word.now) line.now [] result }
{
    let mut cursor = Cursor { rest: line };
    cursor.take(word)
}
