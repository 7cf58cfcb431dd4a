ghost use Rattle.std.specs.Prelude.{◌≡◌, slice_get, OnErr};
ghost use Rattle.c_values.specs.Seen.{seen};
ghost use Rattle.c_values.specs.Answers.{gives};
ghost use Rattle.c_values.specs.Memory.{element, cell_value, load, store};
ghost use Rattle.c_meaning.specs.Pointers.{place, behind, function_behind, load_place, store_place, member, to_first};
ghost use Rattle.ref_machine_steps.specs.Faults.{told, left};
ghost use Rattle.ref_machine_steps.specs.Words.{held};

use crate::Fault;
use crate::fault::undefined;
use crate::values::{callee, pointer};
use c_tree::{ObjectName, Pointer, Value};
use c_values::Memory;

/// The place of so many cells from a cell of an object on.
pub fn place(name: ObjectName, first: u32, width: u32) -> Value
    ensures { result ≡ place name first width }
{
    Value::At(Pointer {
        name,
        first,
        width,
        elements: 1,
        index: 0,
    })
}

// The first cell of the element that is pointed to.
pub fn element(at: &Pointer) -> Result<usize, Fault>
    ensures { told result ≡ element at.now }
{
    if at.index < at.elements {
        Ok(at.first as usize + at.index as usize * at.width as usize)
    } else {
        Err(undefined(8))
    }
}

// The place of so many cells from this cell of an object on, where it has a number of 32 bits.
fn place_from(name: ObjectName, first: usize, width: u32) -> Result<Value, Fault>
    ensures { told result ≡ held (gives (place name first width)) }
{
    match u32::try_from(first) {
        Ok(first) => Ok(place(name, first, width)),
        Err(_) => Err(Fault::Mistyped),
    }
}

/// What a pointer to an object points to (C99 6.5.3.2 paragraph 4). It refuses a null pointer with kind 5, one to an
/// object that has ended with kind 6, and one past the last element with kind 8.
pub fn behind(memory: &Memory, value: Value) -> Result<Value, Fault>
    ensures { told result ≡ held (behind (seen memory.now) value) }
{
    let at = pointer(value)?;
    let Some(_) = memory.cells(at.name) else {
        return Err(undefined(6));
    };
    let first = element(&at)?;
    place_from(at.name, first, at.width)
}

/// What a pointer to a function points to. It refuses a null pointer with kind 5.
pub fn function_behind(value: Value) -> Result<Value, Fault>
    ensures { told result ≡ function_behind value }
{
    let function = callee(value)?;
    Ok(Value::Func(function))
}

// The value of a cell.
fn value_at(cells: &[Value], cell: usize) -> Result<Value, Fault>
    ensures { told result ≡ cell_value (slice_get cells.now cell) }
{
    match cells.get(cell) {
        None => Err(Fault::Mistyped),
        Some(Value::Indeterminate) => Err(undefined(4)),
        Some(value) => Ok(*value),
    }
}

// The value of the first cell of the element that is pointed to.
fn load(memory: &Memory, at: &Pointer) -> Result<Value, Fault>
    ensures { told result ≡ load (seen memory.now) at.now 0 }
{
    let Some(cells) = memory.cells(at.name) else {
        return Err(undefined(6));
    };
    let first = element(at)?;
    value_at(cells, first)
}

/// The value of a place of one cell (C99 6.3.2.1 paragraph 2). It refuses an object that has ended with kind 6, and
/// an indeterminate value with kind 4.
pub fn load_place(memory: &Memory, place: Value) -> Result<Value, Fault>
    ensures { told result ≡ load_place (seen memory.now) place }
{
    let at = pointer(place)?;
    load(memory, &at)
}

// The first cell of the element that is pointed to has this value from now on.
pub fn store(memory: &mut Memory, at: &Pointer, value: Value) -> Result<(), Fault>
    ensures answer { left (seen memory.new) result ≡ store (seen memory.old) at.now 0 value }
    ensures refused { OnErr result (seen memory.new ≡ seen memory.old) }
{
    let Some(cells) = memory.cells(at.name) else {
        return Err(undefined(6));
    };
    let count = cells.len();
    let first = element(at)?;
    if memory.is_string(at.name) {
        return Err(undefined(10));
    }
    if count <= first {
        return Err(Fault::Mistyped);
    }
    memory.set(at.name, first, value);
    Ok(())
}

/// A place of one cell has this value from now on (C99 6.5.16.1). It refuses an object that has ended with kind 6, and
/// a string literal with kind 10; then it changes nothing.
pub fn store_place(memory: &mut Memory, place: Value, value: Value) -> Result<(), Fault>
    ensures answer { left (seen memory.new) result ≡ store_place (seen memory.old) place value }
    ensures refused { OnErr result (seen memory.new ≡ seen memory.old) }
{
    let at = pointer(place)?;
    store(memory, &at, value)
}

/// The member of so many cells that begins so many cells after a struct (C99 6.5.2.3).
pub fn member(first: u32, width: u32, value: Value) -> Result<Value, Fault>
    ensures { told result ≡ held (member first width value) }
{
    let at = pointer(value)?;
    place_from(at.name, at.first as usize + first as usize, width)
}

/// The pointer to the first of so many elements of an array (C99 6.3.2.1 paragraph 3).
pub fn to_first(width: u32, elements: u32, value: Value) -> Result<Value, Fault>
    ensures { told result ≡ to_first width elements value }
{
    let at = pointer(value)?;
    Ok(Value::At(Pointer {
        name: at.name,
        first: at.first,
        width,
        elements,
        index: 0,
    }))
}
