ghost use Rattle.std.specs.Prelude.{◌≡◌, ◌≤◌, ◌+◌, ◌-◌, ◌*◌, length, take, drop, nat_le, IfSome};
ghost use Rattle.std.specs.Option.{option_map};
ghost use Rattle.c_values.specs.Seen.{seen};
ghost use Rattle.c_meaning.specs.SystemCalls.{is_zero, before_zero, bytes_in, string, bytes_of_buffer, room_for};
ghost use Rattle.ref_machine_steps.specs.Asking.{Tells};
ghost use Rattle.ref_machine_steps.specs.ByteCells.{byte_in};
ghost use Rattle.ref_machine_steps.specs.Faults.{told};

use crate::fault::undefined;
use crate::values::pointer;
use crate::{Fault, StepError};
use c_tree::{Pointer, Value};
use c_values::Memory;
use dm_base::Bytes;
use std::alloc::Global;

// The cells from this one on.
fn cells_after(cells: &[Value], first: usize) -> &[Value]
    ensures { result.now ≡ drop first cells.now }
{
    if cells.len() <= first {
        return &[];
    }
    &cells[first..]
}

// The first cells, so many or all.
fn first_cells(cells: &[Value], count: usize) -> &[Value]
    ensures { result.now ≡ take count cells.now }
{
    if cells.len() <= count {
        return cells;
    }
    &cells[..count]
}

// The cells of so many elements of an array of chars, from the one that is pointed to.
fn cells_from<'a>(cells: &'a [Value], at: &Pointer, count: usize) -> &'a [Value]
    ensures { result.now ≡ take count (drop (at.now.first + at.now.index * at.now.width) cells.now) }
{
    let first = at.first as usize + at.index as usize * at.width as usize;
    first_cells(cells_after(cells, first), count)
}

// The byte in a char cell.
fn byte_in(cell: Value) -> Result<u8, Fault>
    ensures { told result ≡ byte_in cell }
{
    match cell {
        Value::Char(char) => Ok(char.cast_unsigned()),
        Value::Indeterminate => Err(undefined(4)),
        _ => Err(Fault::Mistyped),
    }
}

// The bytes in char cells.
fn bytes_in(alloc: Global, cells: &[Value]) -> Result<Bytes, StepError>
    ensures { Tells result (bytes_in cells.now) }
{
    let mut bytes = Vec::new(alloc);
    for cell in cells {
        let byte = byte_in(*cell)?;
        bytes.push(byte)?;
    }
    let bytes = Bytes::of(alloc, &bytes)?;
    Ok(bytes)
}

// Whether a cell is that of the zero at the end of a string.
fn is_zero(cell: Value) -> bool
    ensures { result ≡ is_zero cell }
{
    match cell {
        Value::Char(char) => char == 0,
        _ => false,
    }
}

// How many cells stand before the first zero.
fn count_before_zero(cells: &[Value]) -> Option<usize>
    ensures before { option_map (λ n. take n cells.now) result ≡ before_zero cells.now }
    ensures within { IfSome result (λ n. n ≤ length cells.now) }
{
    for (i, cell) in cells.iter().enumerate() {
        if is_zero(*cell) {
            return Some(i);
        }
    }
    None
}

/// The bytes of a string argument before its zero. It refuses an object that has ended with kind 6, an array without a
/// zero from there on with kind 12, and an indeterminate byte with kind 4.
pub fn string(alloc: Global, memory: &Memory, at: &Pointer) -> Result<Bytes, StepError>
    ensures { Tells result (string (seen memory.now) at.now) }
{
    let Some(cells) = memory.cells(at.name) else {
        return Err(StepError::Faulty(undefined(6)));
    };
    let rest = cells_from(cells, at, at.elements.saturating_sub(at.index) as usize);
    let Some(count) = count_before_zero(rest) else {
        return Err(StepError::Faulty(undefined(12)));
    };
    bytes_in(alloc, &rest[..count])
}

// Whether the array has so many elements from the one that is pointed to.
fn has_room(at: &Pointer, count: u32) -> bool
    ensures { result ≡ nat_le (at.now.index + count) at.now.elements }
{
    at.index as u64 + count as u64 <= at.elements as u64
}

/// The bytes of a buffer that write is given; a buffer of no bytes isn't looked at. It refuses a null pointer with kind
/// 5, an object that has ended with kind 6, a buffer with fewer elements left with kind 12, and an indeterminate byte
/// with kind 4.
pub fn bytes_of_buffer(
    alloc: Global,
    memory: &Memory,
    buffer: Value,
    count: u32,
) -> Result<Bytes, StepError>
    ensures { Tells result (bytes_of_buffer (seen memory.now) buffer count) }
{
    if count == 0 {
        let none = Bytes::of(alloc, &[])?;
        return Ok(none);
    }
    let at = pointer(buffer)?;
    let Some(cells) = memory.cells(at.name) else {
        return Err(StepError::Faulty(undefined(6)));
    };
    if !has_room(&at, count) {
        return Err(StepError::Faulty(undefined(12)));
    }
    bytes_in(alloc, cells_from(cells, &at, count as usize))
}

/// The buffer that read is given; one for no bytes isn't looked at. It refuses a null pointer with kind 5, an object
/// that has ended with kind 6, a string literal with kind 10, and a buffer with fewer elements left with kind 12.
pub fn room_for(memory: &Memory, buffer: Value, count: u32) -> Result<Option<Pointer>, Fault>
    ensures { told result ≡ room_for (seen memory.now) buffer count }
{
    if count == 0 {
        return Ok(None);
    }
    let at = pointer(buffer)?;
    let Some(_) = memory.cells(at.name) else {
        return Err(undefined(6));
    };
    if memory.is_string(at.name) {
        return Err(undefined(10));
    }
    if !has_room(&at, count) {
        return Err(undefined(12));
    }
    Ok(Some(at))
}
