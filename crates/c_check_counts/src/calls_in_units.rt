ghost use Rattle.std.specs.Prelude.{◌≡◌, ◌++◌, map, IfOk, OnOk};
ghost use Rattle.c_syntax.specs.View.{declarator_of};
ghost use Rattle.c_syntax.specs.UnitView.{stmt_of, item_at, items_of};
ghost use Rattle.c_syntax.specs.Writes.{declarator_behind};
ghost use Rattle.c_rules.specs.CallPlaces.{called_in, declared_name, call_places_of_item, call_places};
ghost use Rattle.c_rules.specs.PlacesOfCalls.{places_of_stmt};
ghost use Rattle.c_check_counts.specs.SeenCalls.{seen};

use crate::call_place::CallPlace;
use crate::calls_in_statements::add_statement;
use c_syntax::{Declarator, DeclaratorKind, Item, ItemKind, Stmt};
use dm_base::OutOfMemory;
use std::alloc::Global;

// The name that a declarator declares.
#[cycle(named)]
fn declared_name(d: &Declarator) -> &[u8]
    ensures { result.now ≡ declared_name (declarator_of d.now) }
{
    match &d.kind {
        DeclaratorKind::Name(x) => x.name.as_slice(),
        DeclaratorKind::Pointer(inner) => inner_name(inner),
        DeclaratorKind::Array { inner, .. } => inner_name(inner),
        DeclaratorKind::Function { inner, .. } => inner_name(inner),
    }
}

#[cycle(named)]
fn inner_name(inner: &Option<Box<Declarator>>) -> &[u8]
    ensures { result.now ≡ declared_name (declarator_behind inner.now) }
{
    match inner {
        Some(d) => declared_name(d),
        None => &[],
    }
}

// Adds call expressions at these places, which stand in the function with this name.
fn add_places<'t>(
    into: &mut Vec<CallPlace<'t>>,
    caller: &'t [u8],
    places: &[u32],
) -> Result<(), OutOfMemory>
    ensures { OnOk result (seen into.new.items ≡ seen into.old.items ++ map (called_in caller.now) places.now) }
{
    for at in places {
        into.push(CallPlace { caller, at: *at })?;
    }
    Ok(())
}

// Adds those in the body of the function with this name.
fn add_body<'t>(
    alloc: Global,
    into: &mut Vec<CallPlace<'t>>,
    caller: &'t [u8],
    body: &Stmt,
) -> Result<(), OutOfMemory>
    ensures { OnOk result (seen into.new.items ≡ seen into.old.items ++ map (called_in caller.now) (places_of_stmt (stmt_of body.now))) }
{
    let mut places = Vec::new(alloc);
    add_statement(&mut places, body)?;
    add_places(into, caller, &places)
}

// Adds those of the item.
fn add_item<'t>(
    alloc: Global,
    into: &mut Vec<CallPlace<'t>>,
    item: &'t Item,
) -> Result<(), OutOfMemory>
    ensures { OnOk result (seen into.new.items ≡ seen into.old.items ++ call_places_of_item (item_at item.now.at item.now.kind)) }
{
    match &item.kind {
        ItemKind::Function {
            declarator,
            body,
            ..
        } => add_body(alloc, into, declared_name(declarator), body),
        _ => Ok(()),
    }
}

/// The call expressions of the unit with these items that are evaluated (C99 6.5.2.2), each with its place and the function in which it
/// stands, in the order of their opening parentheses: that with the number n, counted from 0, has the site n in the program that the
/// checker makes of the unit. The error is that memory was refused.
pub fn places_of_calls<'t>(
    alloc: Global,
    items: &'t [Item],
) -> Result<Vec<CallPlace<'t>>, OutOfMemory>
    ensures { IfOk result (λ found. seen found.items ≡ call_places (items_of items.now)) }
{
    let mut found = Vec::new(alloc);
    for item in items {
        add_item(alloc, &mut found, item)?;
    }
    Ok(found)
}
