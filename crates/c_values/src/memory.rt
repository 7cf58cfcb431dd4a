ghost use Rattle.std.specs.Prelude.{◌≡◌, ◌<◌, IsSome, OnOk, OnErr};
ghost use Rattle.c_values.specs.Told.{told, left};
ghost use Rattle.c_values.specs.Memory.{no_objects, declared, sealed, ended, load, store, IsInside};
ghost use Rattle.std.specs.Option.{option_copied};
ghost use Rattle.c_values.specs.Cells.{cells_of, is_string, put, HasCell};
ghost use Rattle.c_values.specs.Seen.{seen};

use crate::held::Held;
use crate::kinds::kind;
use c_tree::{Kind, ObjectName, OutOfMemory, Pointer, Value};
use std::alloc::Global;
use std::collections::HashMap;

/// The objects of a run: for each name that is there the values of its cells, and whether it is a string literal.
/// An object is found by its name in a time that does not grow with their number.
#[derive(Drop)]
pub struct Memory {
    alloc: Global,
    objects: HashMap<(u64, u32), Held>,
}

fn key(name: ObjectName) -> (u64, u32)
    ensures { result ≡ (name.activation, name.variable) }
{
    (name.activation, name.variable)
}

impl Memory {
    /// Memory without an object. It takes its memory from `alloc`, none for now.
    pub fn new(alloc: Global) -> Memory
        ensures { seen result ≡ no_objects }
    {
        Memory {
            alloc,
            objects: HashMap::new(alloc),
        }
    }

    /// Gives the name so many cells, all indeterminate, in the place of those that it had. `OutOfMemory` leaves all
    /// as it was.
    pub fn declare(&mut self, name: ObjectName, cells: u32) -> Result<(), OutOfMemory>
        ensures declared { OnOk result (seen self.new ≡ declared (seen self.old) name cells) }
        ensures refused { OnErr result (seen self.new ≡ seen self.old) }
    {
        let cells = vec![in self.alloc; Value::Indeterminate; cells as usize]?;
        self.objects.insert(
            key(name),
            Held {
                cells,
                string: false,
            },
        )?;
        Ok(())
    }

    /// Makes the object a string literal, which can't be stored to (C99 6.4.5 paragraph 6).
    pub fn seal(&mut self, name: ObjectName)
        requires { IsSome (seen self.old name) }
        ensures { seen self.new ≡ sealed (seen self.old) name }
    {
        if let Some(held) = self.objects.get_mut(&key(name)) {
            held.string = true;
        }
    }

    /// Ends the object, if it is there (C99 6.2.4 paragraph 2).
    pub fn end(&mut self, name: ObjectName)
        ensures { seen self.new ≡ ended (seen self.old) name }
    {
        let _ended = self.objects.remove(&key(name));
    }

    /// The value of a cell of the element that is pointed to. It refuses with kind 6 where the object is not there,
    /// with 8 where the pointer is one past the last element, and with 4 where the cell is indeterminate.
    pub fn load(&self, at: &Pointer, cell: u32) -> Result<Value, Kind>
        requires cell { cell < at.now.width }
        requires inside { IsInside (seen self.now) at.now }
        ensures { told result ≡ load (seen self.now) at.now cell }
    {
        match self.objects.get(&key(at.name)) {
            None => Err(kind(6)),
            Some(held) => held.load(at, cell),
        }
    }

    /// Gives a cell of the element that is pointed to this value. It refuses with kind 6 where the object is not
    /// there, with 8 where the pointer is one past the last element, and with 10 where the object is a string literal;
    /// then it changes nothing.
    pub fn store(&mut self, at: &Pointer, cell: u32, value: Value) -> Result<(), Kind>
        requires cell { cell < at.now.width }
        requires inside { IsInside (seen self.old) at.now }
        ensures answer { left (seen self.new) result ≡ store (seen self.old) at.now cell value }
        ensures refused { OnErr result (seen self.new ≡ seen self.old) }
    {
        match self.objects.get_mut(&key(at.name)) {
            None => Err(kind(6)),
            Some(held) => held.store(at, cell, value),
        }
    }

    /// The values of the object's cells, or None where it is not there.
    pub fn cells(&self, name: ObjectName) -> Option<&[Value]>
        ensures { option_copied result ≡ cells_of (seen self.now name) }
    {
        match self.objects.get(&key(name)) {
            None => None,
            Some(held) => Some(&held.cells),
        }
    }

    /// Whether the object is that of a string literal. A name without an object has none.
    pub fn is_string(&self, name: ObjectName) -> bool
        ensures { result ≡ is_string (seen self.now name) }
    {
        match self.objects.get(&key(name)) {
            None => false,
            Some(held) => held.string,
        }
    }

    /// Gives a cell of the object this value, also where it is that of a string literal.
    pub fn set(&mut self, name: ObjectName, cell: usize, value: Value)
        requires { HasCell (seen self.old name) cell }
        ensures { seen self.new ≡ put (seen self.old) name cell value }
    {
        if let Some(held) = self.objects.get_mut(&key(name)) {
            held.put(cell, value);
        }
    }
}
