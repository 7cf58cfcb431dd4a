ghost use Rattle.std.specs.Prelude.{◌≡◌, ◌<◌, ◌≤◌, ◌+◌, ◌*◌, length, slice_get, Some, OnErr, IfOk};
ghost use Rattle.c_values.specs.Told.{told, left};
ghost use Rattle.c_values.specs.Answers.{and_then};
ghost use Rattle.c_values.specs.Memory.{element, cell_value, writable, set_cell};
ghost use Rattle.c_values.specs.Cells.{with_cell};
ghost use Rattle.c_values.specs.Held.{held_object, LiesIn, load_from, store_to};

use crate::kinds::kind;
use c_tree::{Kind, Pointer, Value};

// An object: the values of its cells, and whether it is a string literal.
pub struct Held {
    pub cells: Vec<Value>,
    pub string: bool,
}

impl Drop for Held {
    fn drop(self) {
        let Self {
            cells: _cells,
            string: _string,
        } = self;
    }
}

// The first cell of the element that is pointed to.
fn first_cell(at: &Pointer) -> Result<usize, Kind>
    ensures { told result ≡ element at.now }
{
    if at.index < at.elements {
        Ok(at.first as usize + at.index as usize * at.width as usize)
    } else {
        Err(kind(8))
    }
}

impl Held {
    // The value of a cell.
    fn value_at(&self, place: usize) -> Result<Value, Kind>
        requires { place < length self.now.cells.items }
        ensures { told result ≡ cell_value (slice_get self.now.cells.items place) }
    {
        match self.cells[place] {
            Value::Indeterminate => Err(kind(4)),
            value => Ok(value),
        }
    }

    // Gives a cell this value.
    fn set(&mut self, place: usize, value: Value) -> Result<(), Kind>
        requires { place < length self.old.cells.items }
        ensures answer { left (held_object self.new) result ≡ and_then (writable (held_object self.old)) (λ cells. set_cell cells place value (slice_get cells place)) }
        ensures refused { OnErr result (held_object self.new ≡ held_object self.old) }
    {
        if self.string {
            return Err(kind(10));
        }
        self.cells[place] = value;
        Ok(())
    }

    // Gives a cell this value, also in a string literal.
    pub fn put(&mut self, cell: usize, value: Value)
        requires { cell < length self.old.cells.items }
        ensures { Some (held_object self.new) ≡ with_cell cell value (Some (held_object self.old)) }
    {
        self.cells[cell] = value;
    }

    // The value of a cell of the element that is pointed to.
    pub fn load(&self, at: &Pointer, cell: u32) -> Result<Value, Kind>
        requires cell { cell < at.now.width }
        requires inside { LiesIn self.now at.now }
        ensures { told result ≡ load_from (held_object self.now) at.now cell }
    {
        match first_cell(at) {
            Err(kind) => Err(kind),
            Ok(first) => self.value_at(first + cell as usize),
        }
    }

    // Gives a cell of the element that is pointed to this value.
    pub fn store(&mut self, at: &Pointer, cell: u32, value: Value) -> Result<(), Kind>
        requires cell { cell < at.now.width }
        requires inside { LiesIn self.old at.now }
        ensures answer { left (held_object self.new) result ≡ store_to (held_object self.old) at.now cell value }
        ensures refused { OnErr result (held_object self.new ≡ held_object self.old) }
    {
        match first_cell(at) {
            Err(kind) => Err(kind),
            Ok(first) => self.set(first + cell as usize, value),
        }
    }
}
