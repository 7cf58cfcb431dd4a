ghost use Rattle.std.specs.Prelude.{◌≡◌, ◌-ℤ◌, pos};
ghost use Rattle.c_tree.specs.declared.value.Value.TheVariants.{Int};
ghost use Rattle.c_values.specs.Answers.{gives};
ghost use Rattle.c_values.specs.Seen.{seen};
ghost use Rattle.c_meaning.specs.Pointers.{at_index, offset, moved, same_array, in_one_array, difference, alive, same_cell, equal_pointers, equality, compared};
ghost use Rattle.ref_machine_steps.specs.Faults.{told};
ghost use Rattle.ref_machine_steps.specs.Words.{in_words, held};

use crate::Fault;
use crate::fault::undefined;
use crate::values::{number, pointer, truth_value};
use c_tree::{BinOp, Pointer, Value};
use c_values::Memory;

// The element with this index, or one past the last.
fn at_index(at: Pointer, index: i64) -> Result<Value, Fault>
    ensures { told result ≡ at_index at index }
{
    if index < 0 || (at.elements as i64) < index {
        return Err(undefined(7));
    }
    Ok(Value::At(Pointer {
        name: at.name,
        first: at.first,
        width: at.width,
        elements: at.elements,
        index: index as u32,
    }))
}

/// The pointer so many elements on, or back (C99 6.5.6 paragraph 8). It refuses a null pointer with kind 5, one to an
/// object that has ended with kind 6, and to leave the array and one past with kind 7.
pub fn moved(memory: &Memory, subtracted: bool, value: Value, by: Value) -> Result<Value, Fault>
    ensures { told result ≡ moved (seen memory.now) subtracted value by }
{
    let at = pointer(value)?;
    let Some(_) = memory.cells(at.name) else {
        return Err(undefined(6));
    };
    let by = number(by)?;
    let index = at.index as i64;
    if subtracted {
        at_index(at, index - by)
    } else {
        at_index(at, index + by)
    }
}

// Whether both point into one array.
fn is_same_array(a: &Pointer, b: &Pointer) -> bool
    ensures { result ≡ same_array a.now b.now }
{
    a.name.activation == b.name.activation
        && a.name.variable == b.name.variable
        && a.first == b.first
        && a.width == b.width
        && a.elements == b.elements
}

// The indices of two pointers into one array.
fn indices(memory: &Memory, left: Value, right: Value) -> Result<(u32, u32), Fault>
    ensures { told result ≡ in_one_array (seen memory.now) left right (λ a b. gives (a.index, b.index)) }
{
    let a = pointer(left)?;
    let b = pointer(right)?;
    let Some(_) = memory.cells(a.name) else {
        return Err(undefined(6));
    };
    let Some(_) = memory.cells(b.name) else {
        return Err(undefined(6));
    };
    if is_same_array(&a, &b) {
        Ok((a.index, b.index))
    } else {
        Err(undefined(9))
    }
}

// How many elements the second index is before the first, as an int.
fn between(a: u32, b: u32) -> Result<Value, Fault>
    ensures { told result ≡ in_words (Int (pos a -ℤ pos b)) }
{
    match i32::try_from(a as i64 - b as i64) {
        Ok(count) => Ok(Value::Int(count)),
        Err(_) => Err(Fault::Mistyped),
    }
}

/// How many elements the second pointer is before the first (C99 6.5.6 paragraph 9). It refuses a null pointer with
/// kind 5, one to an object that has ended with kind 6, and pointers into different arrays with kind 9.
pub fn difference(memory: &Memory, left: Value, right: Value) -> Result<Value, Fault>
    ensures { told result ≡ held (difference (seen memory.now) left right) }
{
    let (a, b) = indices(memory, left, right)?;
    between(a, b)
}

// The value, which is no pointer to an object that has ended.
fn alive(memory: &Memory, value: Value) -> Result<Value, Fault>
    ensures { told result ≡ alive (seen memory.now) value }
{
    match value {
        Value::At(at) => match memory.cells(at.name) {
            Some(_) => Ok(value),
            None => Err(undefined(6)),
        },
        value => Ok(value),
    }
}

// Whether both stand at one cell of one object.
fn is_same_cell(a: &Pointer, b: &Pointer) -> bool
    ensures { result ≡ same_cell a.now b.now }
{
    if a.name.activation != b.name.activation || a.name.variable != b.name.variable {
        return false;
    }
    let left = a.first as u64 + a.index as u64 * a.width as u64;
    let right = b.first as u64 + b.index as u64 * b.width as u64;
    left == right
}

// Whether two pointers are equal.
fn are_equal(left: Value, right: Value) -> Result<bool, Fault>
    ensures { told result ≡ equal_pointers left right }
{
    match (left, right) {
        (Value::At(a), Value::At(b)) => Ok(is_same_cell(&a, &b)),
        (Value::Func(f), Value::Func(g)) => Ok(f == g),
        (Value::Null, Value::Null) => Ok(true),
        (Value::At(_), Value::Null) => Ok(false),
        (Value::Func(_), Value::Null) => Ok(false),
        (Value::Null, Value::At(_)) => Ok(false),
        (Value::Null, Value::Func(_)) => Ok(false),
        _ => Err(Fault::Mistyped),
    }
}

// Whether two pointers are equal, neither to an object that has ended.
fn equality(memory: &Memory, left: Value, right: Value) -> Result<bool, Fault>
    ensures { told result ≡ equality (seen memory.now) left right }
{
    let left = alive(memory, left)?;
    let right = alive(memory, right)?;
    are_equal(left, right)
}

/// The int 1 or 0 of a comparison of two pointers (C99 6.5.8 paragraph 5, 6.5.9 paragraph 6). Order asks for one array,
/// as `difference` does. Equality refuses a pointer to an object that has ended with kind 6.
pub fn compared(memory: &Memory, op: BinOp, left: Value, right: Value) -> Result<Value, Fault>
    ensures { told result ≡ compared (seen memory.now) op left right }
{
    match op {
        BinOp::Less => {
            let (a, b) = indices(memory, left, right)?;
            Ok(truth_value(a < b))
        }
        BinOp::Greater => {
            let (a, b) = indices(memory, left, right)?;
            Ok(truth_value(a > b))
        }
        BinOp::LessEqual => {
            let (a, b) = indices(memory, left, right)?;
            Ok(truth_value(a <= b))
        }
        BinOp::GreaterEqual => {
            let (a, b) = indices(memory, left, right)?;
            Ok(truth_value(a >= b))
        }
        BinOp::Equal => {
            let same = equality(memory, left, right)?;
            Ok(truth_value(same))
        }
        BinOp::NotEqual => {
            let same = equality(memory, left, right)?;
            Ok(truth_value(!same))
        }
        _ => Err(Fault::Mistyped),
    }
}
