ghost use Rattle.std.specs.Prelude.{◌≡◌, ◌∷◌, [], ◌++◌, map, IfOk, OnOk};
ghost use Rattle.c_check_initialisers.specs.CellView.{typed_expressions_of};
ghost use Rattle.c_check_initialisers.specs.Left.{AddsZeros, AddsAllZeros};
ghost use Rattle.c_check_values.specs.Shown.{members_types};
ghost use Rattle.c_rules.specs.Initialisers.{typed_zero};
ghost use Rattle.c_rules.specs.Scopes.{layout_of};
ghost use Rattle.c_check_values.specs.View.{env_of};
ghost use Rattle.c_tree.specs.Layout.{flat};
ghost use Rattle.c_tree.specs.Tree.{array, struct};
ghost use Rattle.c_tree.specs.View.{ctype_of};

use crate::constants::typed_zero;
use c_check_values::{Environment, StructMember, TypedExpression};
use c_tree::CType;
use dm_base::OutOfMemory;
use std::alloc::Global;

// Adds the zero of a scalar.
fn add_zero(alloc: Global, t: &CType, cells: &mut Vec<TypedExpression>) -> Result<(), OutOfMemory>
    ensures { OnOk result (typed_expressions_of cells.new.items ≡ typed_expressions_of cells.old.items ++ typed_zero (ctype_of t.now) ∷ []) }
{
    let zero = typed_zero(alloc, t)?;
    cells.push(zero)?;
    Ok(())
}

// Adds the zeros of an object of the type, with structs at most so many deep.
#[cycle(zeros)]
fn add_zeros(
    alloc: Global,
    env: &Environment<'_>,
    depth: usize,
    t: &CType,
    cells: &mut Vec<TypedExpression>,
) -> Result<(), OutOfMemory>
    ensures { OnOk result (AddsZeros (layout_of (env_of env.now)) depth (ctype_of t.now) (typed_expressions_of cells.old.items) (typed_expressions_of cells.new.items)) }
{
    match t {
        CType::Int(_) | CType::Pointer(_) => add_zero(alloc, t, cells),
        CType::Array(element, n) => add_copies(alloc, env, depth, element, *n, cells),
        CType::Struct(s) => add_struct(alloc, env, depth, *s, cells),
        _ => Ok(()),
    }
}

// The same of an array with so many elements of the type.
#[cycle(zeros)]
fn add_copies(
    alloc: Global,
    env: &Environment<'_>,
    depth: usize,
    element: &CType,
    n: u32,
    cells: &mut Vec<TypedExpression>,
) -> Result<(), OutOfMemory>
    ensures { OnOk result (AddsZeros (layout_of (env_of env.now)) depth (array (ctype_of element.now) n) (typed_expressions_of cells.old.items) (typed_expressions_of cells.new.items)) }
{
    for _ in 0..n {
        add_zeros(alloc, env, depth, element, cells)?;
    }
    Ok(())
}

// The same of a struct; one without a definition has no cells.
#[cycle(zeros)]
fn add_struct(
    alloc: Global,
    env: &Environment<'_>,
    depth: usize,
    s: u32,
    cells: &mut Vec<TypedExpression>,
) -> Result<(), OutOfMemory>
    ensures { OnOk result (AddsZeros (layout_of (env_of env.now)) depth (struct s) (typed_expressions_of cells.old.items) (typed_expressions_of cells.new.items)) }
{
    let Some(inner) = depth.checked_sub(1) else {
        return Ok(());
    };
    match env.members(s) {
        Some(members) => add_members(alloc, env, inner, members, cells),
        None => Ok(()),
    }
}

// The same of these members.
#[cycle(zeros)]
fn add_members(
    alloc: Global,
    env: &Environment<'_>,
    depth: usize,
    members: &[StructMember<'_>],
    cells: &mut Vec<TypedExpression>,
) -> Result<(), OutOfMemory>
    ensures { OnOk result (AddsAllZeros (layout_of (env_of env.now)) depth (members_types members.now) (typed_expressions_of cells.old.items) (typed_expressions_of cells.new.items)) }
{
    for member in members {
        add_zeros(alloc, env, depth, &member.ctype, cells)?;
    }
    Ok(())
}

/// The cells of an object of the type without an initialiser (C99 6.7.8 paragraphs 10 and 21).
pub fn zero_cells(
    alloc: Global,
    env: &Environment<'_>,
    t: &CType,
) -> Result<Vec<TypedExpression>, OutOfMemory>
    ensures { IfOk result (λ cells. typed_expressions_of cells.items ≡ map typed_zero (flat (layout_of (env_of env.now)) (ctype_of t.now))) }
{
    let mut cells = Vec::new(alloc);
    add_zeros(alloc, env, env.struct_count(), t, &mut cells)?;
    Ok(cells)
}
