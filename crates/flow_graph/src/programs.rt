ghost use Rattle.std.specs.Prelude.{◌≡◌, ◌<◌, ◌++◌, ◌∷◌, [], map, if◌then◌else◌, OnOk, IfOk};
ghost use Rattle.c_tree.specs.Functions.{defined};
ghost use Rattle.c_tree.specs.Tree.{Function};
ghost use Rattle.c_tree.specs.View.{program_of};
ghost use Rattle.c_meaning.specs.ShapeOf.{shapes_of_functions, any_call, taken_calls};
ghost use Rattle.flow_graph.specs.Calls.{AreCallsOf};
ghost use Rattle.flow_graph.specs.View.{shape_of, shapes_in};
ghost use Rattle.flow_graph.specs.Sited.{stmt_at};

use crate::Calls;
use crate::expressions::{Reading, system_call};
use crate::marks::marks_of;
use crate::sequence::push;
use crate::shape::Shape;
use c_tree::Program;
use dm_base::{OutOfMemory, Pattern, SysName};
use std::alloc::Global;
use sys_table::argument_kinds;

// A system call as a function, whose arguments may be any.
fn any_call(name: SysName) -> Shape
    ensures { shape_of result ≡ any_call name }
{
    system_call(name, Pattern::any(argument_kinds(name).len() as u8))
}

// The shapes of the defined functions, in the order of their definitions.
fn defined_shapes(
    alloc: Global,
    program: &Program,
    marks: &[bool],
) -> Result<Vec<Shape>, OutOfMemory>
    ensures { IfOk result (λ shapes. shapes_in shapes.items ≡ map (λ (f : Function). stmt_at (defined (program_of program.now)) marks.now f.body) (program_of program.now).functions) }
{
    let defined = program.defined();
    let reading = Reading { defined, marks };
    let mut shapes = Vec::new(alloc);
    for f in 0..defined {
        let shape = reading.statement(alloc, &program.function(f).body)?;
        push(&mut shapes, shape)?;
    }
    Ok(shapes)
}

// The system call with this number as a function.
fn call_with(x: u8) -> Shape
    requires { x < 24 }
    ensures { shape_of result ≡ any_call x }
{
    match SysName::from_index(x) {
        Some(name) => any_call(name),
        None => unreachable!(),
    }
}

// Adds the system call with this number, where its name is taken.
fn add_call(into: &mut Vec<Shape>, taken: bool, x: u8) -> Result<(), OutOfMemory>
    requires { x < 24 }
    ensures { OnOk result (shapes_in into.new.items ≡ shapes_in into.old.items ++ map any_call (if taken then x ∷ [] else [])) }
{
    if taken {
        push(into, call_with(x))?;
        return Ok(());
    }
    Ok(())
}

// Adds the system calls whose names are taken, in the order of their numbers.
fn add_taken(into: &mut Vec<Shape>, program: &Program, calls: &Calls) -> Result<(), OutOfMemory>
    requires { AreCallsOf (program_of program.now) calls.now }
    ensures { OnOk result (shapes_in into.new.items ≡ shapes_in into.old.items ++ map any_call (taken_calls (program_of program.now))) }
{
    let defined = program.defined();
    let _sites = program.sites();
    for x in 0..24u8 {
        add_call(into, calls.address_taken(defined + x as u32), x)?;
    }
    Ok(())
}

/// The shapes of the functions of a program that may be entered: the defined ones in the order of their
/// definitions, and then the system calls whose names are taken, as functions whose arguments may be any.
pub fn shapes_of_functions(
    alloc: Global,
    program: &Program,
    calls: &Calls,
) -> Result<Vec<Shape>, OutOfMemory>
    requires { AreCallsOf (program_of program.now) calls.now }
    ensures { IfOk result (λ shapes. shapes_in shapes.items ≡ shapes_of_functions (program_of program.now)) }
{
    let marks = marks_of(alloc, program, calls)?;
    let mut shapes = defined_shapes(alloc, program, &marks)?;
    add_taken(&mut shapes, program, calls)?;
    let _sites = program.sites();
    Ok(shapes)
}
