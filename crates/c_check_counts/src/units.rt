ghost use Rattle.std.specs.Prelude.{◌≡◌, ◌++◌, IfOk, OnOk};
ghost use Rattle.c_syntax.specs.View.{declarator_of};
ghost use Rattle.c_syntax.specs.UnitView.{storage_of, maybe_init_of, parts_of, items_of, item_at};
ghost use Rattle.c_syntax.specs.Writes.{declarator_behind};
ghost use Rattle.c_check_scopes.specs.Functions.{declares_function};
ghost use Rattle.c_check_scopes.specs.Items.{defines};
ghost use Rattle.c_check_scopes.specs.Units.{functions_of_item, functions_of, objects_of_parts, objects_of_item, objects_of};
ghost use Rattle.c_check_counts.specs.Named.{is_named, is_object, objects_of_part};
ghost use Rattle.c_syntax.specs.SeenNames.{seen};

use crate::gather::add;
use crate::names::bytes_of_name;
use c_syntax::{DeclPart, Declarator, DeclaratorKind, Init, Item, ItemKind, Storage};
use dm_base::OutOfMemory;
use std::alloc::Global;

// Adds the name of the function that the item defines.
fn add_function<'t>(into: &mut Vec<&'t [u8]>, item: &'t Item) -> Result<(), OutOfMemory>
    ensures { OnOk result (seen into.new.items ≡ seen into.old.items ++ functions_of_item (item_at item.now.at item.now.kind)) }
{
    match &item.kind {
        ItemKind::Function { declarator, .. } => add(into, bytes_of_name(declarator)),
        _ => Ok(()),
    }
}

/// The names of the functions that are defined, in order (C99 6.9.1).
pub fn functions_of<'t>(alloc: Global, items: &'t [Item]) -> Result<Vec<&'t [u8]>, OutOfMemory>
    ensures { IfOk result (λ names. seen names.items ≡ functions_of (items_of items.now)) }
{
    let mut names = Vec::new(alloc);
    for item in items {
        add_function(&mut names, item)?;
    }
    Ok(names)
}

// Whether it declares a function (C99 6.7.5.3).
#[cycle(functions)]
fn declares_function(d: &Declarator) -> bool
    ensures { result ≡ declares_function (declarator_of d.now) }
{
    match &d.kind {
        DeclaratorKind::Name(_) => false,
        DeclaratorKind::Pointer(inner) => inner_declares(inner),
        DeclaratorKind::Array { inner, .. } => inner_declares(inner),
        DeclaratorKind::Function { inner, .. } => {
            if is_name(inner) {
                return true;
            }
            inner_declares(inner)
        }
    }
}

#[cycle(functions)]
fn inner_declares(inner: &Option<Box<Declarator>>) -> bool
    ensures { result ≡ declares_function (declarator_behind inner.now) }
{
    match inner {
        Some(d) => declares_function(d),
        None => false,
    }
}

// Whether it is a name alone.
fn is_name(inner: &Option<Box<Declarator>>) -> bool
    ensures { result ≡ is_named (declarator_behind inner.now) }
{
    match inner {
        Some(d) => match &d.kind {
            DeclaratorKind::Name(_) => true,
            _ => false,
        },
        None => false,
    }
}

// Whether a declaration of an object defines it (C99 6.9.2).
fn defines(storage: Storage, init: &Option<Init>) -> bool
    ensures { result ≡ defines (storage_of storage) (maybe_init_of init.now) }
{
    match storage {
        Storage::Extern => init.is_some(),
        _ => true,
    }
}

// Whether it defines a static object.
fn is_object(storage: Storage, part: &DeclPart) -> bool
    ensures { result ≡ is_object (storage_of storage) part.now }
{
    if declares_function(&part.declarator) {
        return false;
    }
    defines(storage, &part.init)
}

fn add_object<'t>(
    into: &mut Vec<&'t [u8]>,
    storage: Storage,
    part: &'t DeclPart,
) -> Result<(), OutOfMemory>
    ensures { OnOk result (seen into.new.items ≡ seen into.old.items ++ objects_of_part (storage_of storage) part.now) }
{
    if !is_object(storage, part) {
        return Ok(());
    }
    add(into, bytes_of_name(&part.declarator))
}

fn add_objects<'t>(
    into: &mut Vec<&'t [u8]>,
    storage: Storage,
    parts: &'t [DeclPart],
) -> Result<(), OutOfMemory>
    ensures { OnOk result (seen into.new.items ≡ seen into.old.items ++ objects_of_parts (storage_of storage) (parts_of parts.now)) }
{
    for part in parts {
        add_object(into, storage, part)?;
    }
    Ok(())
}

fn add_objects_of_item<'t>(into: &mut Vec<&'t [u8]>, item: &'t Item) -> Result<(), OutOfMemory>
    ensures { OnOk result (seen into.new.items ≡ seen into.old.items ++ objects_of_item (item_at item.now.at item.now.kind)) }
{
    match &item.kind {
        ItemKind::Declaration(decl) => add_objects(into, decl.storage, &decl.parts),
        _ => Ok(()),
    }
}

/// The names of the static objects that are defined, in order (C99 6.9.2).
pub fn objects_of<'t>(alloc: Global, items: &'t [Item]) -> Result<Vec<&'t [u8]>, OutOfMemory>
    ensures { IfOk result (λ names. seen names.items ≡ objects_of (items_of items.now)) }
{
    let mut names = Vec::new(alloc);
    for item in items {
        add_objects_of_item(&mut names, item)?;
    }
    Ok(names)
}
