ghost use Rattle.std.specs.Prelude.{◌≡◌, ◌++◌, map, IfOk, OnOk};
ghost use Rattle.c_check_initialisers.specs.CellView.{typed_expressions_of, slots_of};
ghost use Rattle.c_check_initialisers.specs.SlotsLeft.{ctype_seen, left_from, slot_at};
ghost use Rattle.c_check_values.specs.Shown.{members_types};
ghost use Rattle.c_rules.specs.Initialisers.{capacity, copies, each, members_of_struct, slots, takes_list, typed_zero, zeros};
ghost use Rattle.c_rules.specs.Scopes.{layout_of, struct_of};
ghost use Rattle.c_check_values.specs.View.{env_of};
ghost use Rattle.c_tree.specs.Layout.{flat};
ghost use Rattle.c_tree.specs.View.{ctype_of, ctypes_of};

use crate::zeros::zero_cells;
use c_check_values::{Environment, StructMember, TypedExpression};
use c_tree::{CType, copy_type};
use dm_base::OutOfMemory;
use std::alloc::Global;

/// The elements of an array or the members of a struct, which initialisers in braces initialise in turn (C99 6.7.8 paragraph 17).
#[derive(Drop)]
pub enum Slots {
    /// So many elements of this type.
    Copies(u32, CType),
    /// Members of these types.
    Each(Vec<CType>),
}

// The types of members.
fn types_of_members(alloc: Global, members: &[StructMember<'_>]) -> Result<Vec<CType>, OutOfMemory>
    ensures { IfOk result (λ ts. ctypes_of ts.items ≡ members_types members.now) }
{
    let mut types = Vec::new(alloc);
    for member in members {
        let ctype = copy_type(alloc, &member.ctype)?;
        types.push(ctype)?;
    }
    Ok(types)
}

// The members of a struct, none where it has no definition.
fn members_of_struct(alloc: Global, env: &Environment<'_>, s: u32) -> Result<Slots, OutOfMemory>
    ensures { IfOk result (λ r. slots_of r ≡ members_of_struct (struct_of (env_of env.now) s)) }
{
    match env.members(s) {
        Some(members) => {
            let types = types_of_members(alloc, members)?;
            Ok(Slots::Each(types))
        }
        None => Ok(Slots::Each(Vec::new(alloc))),
    }
}

/// The elements or members of a type; none where it has none.
pub fn slots_of_type(alloc: Global, env: &Environment<'_>, t: &CType) -> Result<Slots, OutOfMemory>
    ensures { IfOk result (λ r. slots_of r ≡ slots (env_of env.now) (ctype_of t.now)) }
{
    match t {
        CType::Array(element, n) => {
            let copied = copy_type(alloc, element)?;
            Ok(Slots::Copies(*n, copied))
        }
        CType::Struct(s) => members_of_struct(alloc, env, *s),
        _ => Ok(Slots::Each(Vec::new(alloc))),
    }
}

/// How many there are.
pub fn capacity(slots: &Slots) -> usize
    ensures { result ≡ capacity (slots_of slots.now) }
{
    match slots {
        Slots::Copies(n, _) => *n as usize,
        Slots::Each(types) => types.len(),
    }
}

/// The type of the one with this number, from 0.
pub fn slot_at(slots: &Slots, place: usize) -> Option<&CType>
    ensures { ctype_seen result ≡ slot_at (slots_of slots.now) place }
{
    match slots {
        Slots::Copies(n, t) => {
            if place < *n as usize {
                return Some(t);
            }
            None
        }
        Slots::Each(types) => types.get(place),
    }
}

/// Whether the type takes a list in braces (C99 6.7.8 paragraphs 11 and 16): arrays and structs do.
pub fn takes_list(t: &CType) -> bool
    ensures { result ≡ takes_list (ctype_of t.now) }
{
    match t {
        CType::Array(_, _) | CType::Struct(_) => true,
        _ => false,
    }
}

// Adds the cells of one object of the type without an initialiser.
fn add_zeros(
    alloc: Global,
    env: &Environment<'_>,
    t: &CType,
    cells: &mut Vec<TypedExpression>,
) -> Result<(), OutOfMemory>
    ensures { OnOk result (typed_expressions_of cells.new.items ≡ typed_expressions_of cells.old.items ++ map typed_zero (flat (layout_of (env_of env.now)) (ctype_of t.now))) }
{
    let mut zeros = zero_cells(alloc, env, t)?;
    cells.append(&mut zeros)?;
    Ok(())
}

// The same of so many objects.
fn add_copies(
    alloc: Global,
    env: &Environment<'_>,
    count: usize,
    t: &CType,
    cells: &mut Vec<TypedExpression>,
) -> Result<(), OutOfMemory>
    ensures { OnOk result (typed_expressions_of cells.new.items ≡ typed_expressions_of cells.old.items ++ zeros (layout_of (env_of env.now)) (copies count (ctype_of t.now))) }
{
    for _ in 0..count {
        add_zeros(alloc, env, t, cells)?;
    }
    Ok(())
}

// The same of objects of these types.
fn add_each(
    alloc: Global,
    env: &Environment<'_>,
    ts: &[CType],
    cells: &mut Vec<TypedExpression>,
) -> Result<(), OutOfMemory>
    ensures { OnOk result (typed_expressions_of cells.new.items ≡ typed_expressions_of cells.old.items ++ zeros (layout_of (env_of env.now)) (each (ctypes_of ts.now))) }
{
    for t in ts {
        add_zeros(alloc, env, t, cells)?;
    }
    Ok(())
}

/// Adds the cells of those from this number on, which have no initialiser (C99 6.7.8 paragraph 21).
pub fn add_zeros_behind(
    alloc: Global,
    env: &Environment<'_>,
    slots: &Slots,
    place: usize,
    cells: &mut Vec<TypedExpression>,
) -> Result<(), OutOfMemory>
    ensures { OnOk result (typed_expressions_of cells.new.items ≡ typed_expressions_of cells.old.items ++ zeros (layout_of (env_of env.now)) (left_from (slots_of slots.now) place)) }
{
    match slots {
        Slots::Copies(n, t) => {
            let left = (*n as usize).saturating_sub(place);
            add_copies(alloc, env, left, t, cells)
        }
        Slots::Each(types) => match types.get(place..) {
            Some(left) => add_each(alloc, env, left, cells),
            None => Ok(()),
        },
    }
}
