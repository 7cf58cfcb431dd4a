ghost use Rattle.std.specs.Prelude.{◌≡◌, ◌<◌, ◌≤◌, ◌^◌, Some, false, length, map, replicate, All, IfOk, OnOk};
ghost use Rattle.c_tree.specs.declared.value.Value.TheVariants.{Indeterminate};
ghost use Rattle.c_tree.specs.View.{static_of};
ghost use Rattle.c_values.specs.Memory.{changed};
ghost use Rattle.c_values.specs.Seen.{seen};
ghost use Rattle.c_meaning.specs.Meaning.{without};
ghost use Rattle.c_meaning.specs.Runs.{first_objects, with_parameters};

use c_tree::{ObjectName, Static, Value};
use c_values::Memory;
use dm_base::OutOfMemory;
use std::alloc::Global;

// Gives the cells of an object these values.
fn set_cells(memory: &mut Memory, name: ObjectName, cells: &[Value])
    requires { seen memory.old name ≡ Some (record { cells = replicate (length cells.now) Indeterminate; string = false }) }
    ensures { seen memory.new ≡ changed (seen memory.old) name (Some (record { cells = cells.now; string = false })) }
{
    for (i, value) in cells.iter().enumerate() {
        memory.set(name, i, *value);
    }
}

// Gives the name an object of these values.
fn add_object(
    memory: &mut Memory,
    name: ObjectName,
    cells: &[Value],
    string: bool,
) -> Result<(), OutOfMemory>
    requires { length cells.now < 2 ^ 32 }
    ensures { OnOk result (seen memory.new ≡ changed (seen memory.old) name (Some (record { cells = cells.now; string = string }))) }
{
    memory.declare(name, cells.len() as u32)?;
    set_cells(memory, name, cells);
    if string {
        memory.seal(name);
        return Ok(());
    }
    Ok(())
}

/// The static objects and strings before a run, which have activation 0 (C99 5.1.2, 6.7.8 paragraph 10).
pub fn static_objects(alloc: Global, statics: &[Static]) -> Result<Memory, OutOfMemory>
    requires few { length statics.now < 2 ^ 32 }
    requires small { All (λ s. length s.cells.items ≤ 65536) statics.now }
    ensures { IfOk result (λ memory. seen memory ≡ first_objects 0 (map static_of statics.now)) }
{
    let mut memory = Memory::new(alloc);
    let mut number = statics.len();
    while number > 0 {
        number -= 1;
        let one = &statics[number];
        let name = ObjectName {
            activation: 0,
            variable: number as u32,
        };
        add_object(&mut memory, name, &one.cells, one.string)?;
    }
    Ok(memory)
}

/// Gives the parameters of an activation their values, each an object of one cell (C99 6.9.1 paragraph 9).
pub fn set_parameters(
    memory: &mut Memory,
    activation: u64,
    values: &[Value],
) -> Result<(), OutOfMemory>
    requires { length values.now < 2 ^ 32 }
    ensures { OnOk result (seen memory.new ≡ with_parameters activation 0 values.now (seen memory.old)) }
{
    for (i, value) in values.iter().enumerate() {
        let name = ObjectName {
            activation,
            variable: i as u32,
        };
        add_object(memory, name, &[*value], false)?;
    }
    Ok(())
}

/// Ends variables of an activation (C99 6.2.4 paragraph 5).
pub fn end_variables(memory: &mut Memory, activation: u64, variables: &[u32])
    ensures { seen memory.new ≡ without activation variables.now (seen memory.old) }
{
    for variable in variables {
        memory.end(ObjectName {
            activation,
            variable: *variable,
        });
    }
}
