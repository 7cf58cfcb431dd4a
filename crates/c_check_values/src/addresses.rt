ghost use Rattle.std.specs.Prelude.{◌≡◌, ℕ, ◌<◌, ◌+◌, ◌*◌, ◌/◌, ◌^◌, pos, ◌≤ℤ◌, ◌<ℤ◌, neg_ℤ, SomeIff};
ghost use Rattle.c_check_values.specs.Moved.{moved_value};
ghost use Rattle.c_tree.specs.declared.value.Value.TheVariants.{At};
ghost use Rattle.c_check_values.specs.TypedExpressionView.{constant_of};
ghost use Rattle.c_check_scopes.specs.Constants.{address_of_static, static_address, number_of, is_within, part_of, constant_member, constant_decayed, moved, constant_moved};
ghost use Rattle.c_check_scopes.specs.Limits.{most_cells};

use crate::operators::number_of;
use crate::typed_expression::Constant;
use c_tree::{ObjectName, Pointer, Value};

/// The address of the static object with this number and so many cells (C99 6.6 paragraph 9).
pub fn address_of_static(number: u32, cells: u32) -> Value
    ensures { result ≡ address_of_static number cells }
{
    Value::At(Pointer {
        name: ObjectName {
            activation: 0,
            variable: number,
        },
        first: 0,
        width: cells,
        elements: 1,
        index: 0,
    })
}

/// The same, where an object may have so many cells.
pub fn static_address(number: u32, cells: u32) -> Constant
    ensures { constant_of result ≡ static_address number cells }
{
    if cells > 65_536 {
        return Constant::Undefined;
    }
    Constant::Known(address_of_static(number, cells))
}

// The cell of an object that stands so many cells behind what an address leads to, where it is below 2^32.
fn cell_behind(q: &Pointer, from: u32) -> Option<u32>
    ensures { SomeIff result ((q.now.first + q.now.index * q.now.width) + from < 2 ^ 32) ((q.now.first + q.now.index * q.now.width) + from) }
{
    let offset = q.index.checked_mul(q.width)?;
    let first = q.first.checked_add(offset)?;
    first.checked_add(from)
}

// Whether an object may have so many elements of so many cells from a cell on.
fn is_within(first: u32, width: u32, elements: u32) -> bool
    ensures { result ≡ is_within first width elements }
{
    if width > 65_536 {
        return false;
    }
    let Some(cells) = elements.checked_mul(width) else {
        return false;
    };
    match first.checked_add(cells) {
        Some(end) => end <= 65_536,
        None => false,
    }
}

// A part of what an address leads to: from this cell of it on, so many elements of so many cells.
fn part_of(q: &Pointer, from: u32, width: u32, elements: u32) -> Constant
    ensures { constant_of result ≡ part_of q.now from width elements }
{
    if q.index >= q.elements {
        return Constant::Undefined;
    }
    let Some(first) = cell_behind(q, from) else {
        return Constant::Undefined;
    };
    if !is_within(first, width, elements) {
        return Constant::Undefined;
    }
    Constant::Known(Value::At(Pointer {
        name: q.name,
        first,
        width,
        elements,
        index: 0,
    }))
}

/// The address of a member that begins at this cell of the struct and has so many cells.
pub fn constant_member(from: u32, cells: u32, c: Constant) -> Constant
    ensures { constant_of result ≡ constant_member from cells (constant_of c) }
{
    match c {
        Constant::Not | Constant::Undefined => c,
        Constant::Known(value) => match value {
            Value::At(q) => part_of(&q, from, cells, 1),
            _ => Constant::Undefined,
        },
    }
}

// How many elements of so many cells an array of this width has; none where an element has no cell.
fn elements_in(width: u32, cells: u32) -> u32
    ensures { result ≡ width / cells }
{
    if cells == 0 {
        return 0;
    }
    width / cells
}

// An array as a pointer to the first of its elements.
fn first_element(q: &Pointer, cells: u32) -> Constant
    ensures { constant_of result ≡ part_of q.now 0 cells (q.now.width / cells) }
{
    part_of(q, 0, cells, elements_in(q.width, cells))
}

/// The address of the first element of an array whose elements have so many cells.
pub fn constant_decayed(cells: u32, c: Constant) -> Constant
    ensures { constant_of result ≡ constant_decayed cells (constant_of c) }
{
    match c {
        Constant::Not | Constant::Undefined => c,
        Constant::Known(value) => match value {
            Value::At(q) => first_element(&q, cells),
            _ => Constant::Undefined,
        },
    }
}

/// The same, where its elements have more cells than an object may have.
pub fn constant_decayed_past(c: Constant) -> Constant
    ensures { (cells : ℕ) → most_cells < cells → constant_of result ≡ constant_decayed cells (constant_of c) }
{
    match c {
        Constant::Not => Constant::Not,
        _ => Constant::Undefined,
    }
}

// The same array at this element, or one past its end.
fn at_index(q: &Pointer, index: u32) -> Value
    ensures { result ≡ At (record q.now { index = index }) }
{
    Value::At(Pointer {
        name: q.name,
        first: q.first,
        width: q.width,
        elements: q.elements,
        index,
    })
}

// A pointer so many elements on.
fn moved_on(q: &Pointer, by: i64) -> Constant
    requires least { pos 0 ≤ℤ by }
    requires most { by ≤ℤ pos 4294967295 }
    ensures { constant_of result ≡ moved q.now by }
{
    let index = q.index as i64 + by;
    if index > q.elements as i64 {
        return Constant::Undefined;
    }
    Constant::Known(at_index(q, index as u32))
}

// A pointer so many elements back.
fn moved_back(q: &Pointer, by: i64) -> Constant
    requires { by <ℤ pos 0 }
    ensures { constant_of result ≡ moved q.now by }
{
    let index = q.index as i64 + by;
    if index < 0 {
        return Constant::Undefined;
    }
    Constant::Known(at_index(q, index as u32))
}

// A pointer within its array, or one past its end (C99 6.5.6 paragraph 8).
fn moved(q: &Pointer, by: i64) -> Constant
    requires { by ≤ℤ pos 4294967295 }
    ensures { constant_of result ≡ moved q.now by }
{
    if by < 0 {
        return moved_back(q, by);
    }
    moved_on(q, by)
}

// A value that is moved, where it is a pointer to an object.
fn value_moved(value: Value, by: i64) -> Constant
    requires { by ≤ℤ pos 4294967295 }
    ensures { constant_of result ≡ moved_value value by }
{
    match value {
        Value::At(q) => moved(&q, by),
        _ => Constant::Undefined,
    }
}

/// A constant pointer plus a constant integer (C99 6.5.6 paragraph 8).
pub fn constant_moved_on(p: Constant, k: Constant) -> Constant
    ensures { constant_of result ≡ constant_moved (constant_of p) (λ z. z) (constant_of k) }
{
    match p {
        Constant::Not => Constant::Not,
        Constant::Undefined => match k {
            Constant::Not => Constant::Not,
            _ => Constant::Undefined,
        },
        Constant::Known(value) => match k {
            Constant::Not | Constant::Undefined => k,
            Constant::Known(by) => value_moved(value, number_of(by)),
        },
    }
}

// The negative of the number that an integer is.
fn negative(value: Value) -> i64
    ensures number { result ≡ neg_ℤ (number_of value) }
    ensures most { result ≤ℤ pos 4294967295 }
{
    -number_of(value)
}

/// A constant pointer minus a constant integer (C99 6.5.6 paragraph 8).
pub fn constant_moved_back(p: Constant, k: Constant) -> Constant
    ensures { constant_of result ≡ constant_moved (constant_of p) (λ z. neg_ℤ z) (constant_of k) }
{
    match p {
        Constant::Not => Constant::Not,
        Constant::Undefined => match k {
            Constant::Not => Constant::Not,
            _ => Constant::Undefined,
        },
        Constant::Known(value) => match k {
            Constant::Not | Constant::Undefined => k,
            Constant::Known(by) => value_moved(value, negative(by)),
        },
    }
}
