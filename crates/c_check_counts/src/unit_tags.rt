ghost use Rattle.std.specs.Prelude.{◌≡◌, true, false, [], ◌++◌, reverse, IfOk, OnOk};
ghost use Rattle.c_syntax.specs.UnitView.{enumerators_of, item_at, items_of};
ghost use Rattle.c_rules.specs.Names.{each_once, with_new};
ghost use Rattle.c_rules.specs.Tags.{tags_of_enumerators, tags_of_item, tags_of_items};
ghost use Rattle.c_rules.specs.Units.{tags_of};
ghost use Rattle.c_syntax.specs.SeenNames.{seen};

use crate::gather::add;
use crate::tags::{add_enumerators, add_tags};
use c_check_scopes::Numbering;
use c_syntax::{Enumerator, Item};
use dm_base::OutOfMemory;
use std::alloc::Global;

fn add_tags_of_items<'t>(
    into: &mut Vec<&'t [u8]>,
    aside: bool,
    items: &'t [Item],
) -> Result<(), OutOfMemory>
    ensures { OnOk result (seen into.new.items ≡ seen into.old.items ++ tags_of_items aside (items_of items.now)) }
{
    for item in items {
        add_tags(into, aside, item)?;
    }
    Ok(())
}

// The tags in the order in which they are numbered, each as often as it stands there.
fn names_in<'t>(alloc: Global, items: &'t [Item]) -> Result<Vec<&'t [u8]>, OutOfMemory>
    ensures { IfOk result (λ names. seen names.items ≡ tags_of_items true (items_of items.now) ++ tags_of_items false (items_of items.now)) }
{
    let mut names = Vec::new(alloc);
    add_tags_of_items(&mut names, true, items)?;
    add_tags_of_items(&mut names, false, items)?;
    Ok(names)
}

// The names, each once.
fn distinct<'t>(alloc: Global, names: &[&'t [u8]]) -> Result<Numbering<'t>, OutOfMemory>
    ensures { IfOk result (λ once. once ≡ each_once [] (seen names.now)) }
{
    let mut once = Numbering::new(alloc);
    for name in names {
        once.add(*name)?;
    }
    Ok(once)
}

/// The tags of structs in the order of their numbers (C99 6.7.2.3): that in which they first stand in the unit, where the
/// declarations of the instrumenter are left aside, and then those that stand in such declarations alone.
pub fn tags_of<'t>(alloc: Global, items: &'t [Item]) -> Result<Numbering<'t>, OutOfMemory>
    ensures { IfOk result (λ tags. tags ≡ tags_of (items_of items.now)) }
{
    let names = names_in(alloc, items)?;
    distinct(alloc, &names)
}

// Puts the name at the end of both lists, where it isn't there yet.
fn add_distinct<'t>(
    once: &mut Numbering<'t>,
    list: &mut Vec<&'t [u8]>,
    name: &'t [u8],
) -> Result<(), OutOfMemory>
    requires { seen list.old.items ≡ once.old }
    ensures once { OnOk result (once.new ≡ with_new once.old name.now) }
    ensures same { OnOk result (seen list.new.items ≡ once.new) }
{
    if once.contains(name) {
        return Ok(());
    }
    once.push(name)?;
    add(list, name)
}

// The names, each once, as a list.
fn distinct_names<'t>(alloc: Global, names: &[&'t [u8]]) -> Result<Vec<&'t [u8]>, OutOfMemory>
    ensures { IfOk result (λ list. seen list.items ≡ each_once [] (seen names.now)) }
{
    let mut once = Numbering::new(alloc);
    let mut list = Vec::new(alloc);
    for name in names {
        add_distinct(&mut once, &mut list, *name)?;
    }
    Ok(list)
}

/// The same tags as a list: each stands at the place that is its number.
pub fn tag_names<'t>(alloc: Global, items: &'t [Item]) -> Result<Vec<&'t [u8]>, OutOfMemory>
    ensures { IfOk result (λ tags. seen tags.items ≡ tags_of (items_of items.now)) }
{
    let names = names_in(alloc, items)?;
    distinct_names(alloc, &names)
}

// Puts the names at the end, the last one first.
fn push_backwards<'t>(into: &mut Numbering<'t>, names: Vec<&'t [u8]>) -> Result<(), OutOfMemory>
    ensures { OnOk result (reverse into.new ≡ seen names.entry.items ++ reverse into.old) }
{
    let mut left = names;
    while let Some(name) = left.pop() {
        into.push(name)?;
    }
    Ok(())
}

/// Puts the tags of structs that stand in the item at the end, the last one first.
pub fn push_tags<'t>(
    alloc: Global,
    into: &mut Numbering<'t>,
    item: &'t Item,
) -> Result<(), OutOfMemory>
    ensures { OnOk result (reverse into.new ≡ tags_of_item false (item_at item.now.at item.now.kind) ++ reverse into.old) }
{
    let mut names = Vec::new(alloc);
    add_tags(&mut names, false, item)?;
    push_backwards(into, names)
}

/// The tags of structs that stand in the list of an enum, the last one first.
pub fn tags_within<'t>(alloc: Global, es: &'t [Enumerator]) -> Result<Numbering<'t>, OutOfMemory>
    ensures { IfOk result (λ tags. reverse tags ≡ tags_of_enumerators (enumerators_of es.now) ++ []) }
{
    let mut names = Vec::new(alloc);
    add_enumerators(&mut names, es)?;
    let mut tags = Numbering::new(alloc);
    push_backwards(&mut tags, names)?;
    Ok(tags)
}
