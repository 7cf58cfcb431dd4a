ghost use Rattle.std.specs.Prelude.{◌≡◌, ◌&&◌, ◌^◌, length, nat_lt, replicate, IfOk};
ghost use Rattle.c_syntax.specs.SeenNames.{seen};
ghost use Rattle.c_check_values.specs.Agreement.{AgreesWith};
ghost use Rattle.c_rules.specs.Checked.{met};
ghost use Rattle.c_rules.specs.Scopes.{empty_env, incomplete};
ghost use Rattle.c_rules.specs.Units.{env_before, few_names, functions_of, objects_of};
ghost use Rattle.c_check_values.specs.View.{env_of, structs_of};
ghost use Rattle.c_syntax.specs.UnitView.{items_of};

use c_check_counts::{functions_of, objects_of, tags_of};
use c_check_values::{
    C13, CheckError, Context, Environment, FewNames, Numbering, Scopes, StructTable,
};
use c_syntax::Item;
use dm_base::{Mode, OutOfMemory};
use dm_counts::Count;
use std::alloc::Global;

// The names in their order.
fn numbered<'t>(alloc: Global, names: &[&'t [u8]]) -> Result<Numbering<'t>, OutOfMemory>
    ensures { IfOk result (λ numbers. numbers ≡ seen names.now) }
{
    let mut numbers = Numbering::new(alloc);
    for name in names {
        numbers.push(*name)?;
    }
    Ok(numbers)
}

// The names of the functions that are defined.
fn functions_in<'t>(alloc: Global, items: &'t [Item]) -> Result<Numbering<'t>, OutOfMemory>
    ensures { IfOk result (λ numbers. numbers ≡ functions_of (items_of items.now)) }
{
    let names = functions_of(alloc, items)?;
    numbered(alloc, &names)
}

// The names of the static objects that are defined.
fn objects_in<'t>(alloc: Global, items: &'t [Item]) -> Result<Numbering<'t>, OutOfMemory>
    ensures { IfOk result (λ numbers. numbers ≡ objects_of (items_of items.now)) }
{
    let names = objects_of(alloc, items)?;
    numbered(alloc, &names)
}

// The structs with these tags, none of them defined.
fn structs_with<'t>(alloc: Global, tags: &FewNames<'_>) -> Result<StructTable<'t>, OutOfMemory>
    ensures { IfOk result (λ structs. structs_of structs ≡ replicate (length tags.now) incomplete) }
{
    StructTable::new(alloc, tags.len())
}

// Whether names of the whole unit are fewer than 2^31.
fn are_few(names: &Numbering<'_>) -> bool
    ensures { result ≡ nat_lt (length names.now) (2 ^ 31) }
{
    names.len() < 2_147_483_648
}

// Whether the functions, the objects and the tags of structs of a unit are few.
fn are_all_few(functions: &Numbering<'_>, objects: &Numbering<'_>, tags: &Numbering<'_>) -> bool
    ensures { result ≡ (nat_lt (length functions.now) (2 ^ 31) && (nat_lt (length objects.now) (2 ^ 31) && nat_lt (length tags.now) (2 ^ 31))) }
{
    are_few(functions) && (are_few(objects) && are_few(tags))
}

// What is known before all items, where these are the names of the functions and of the objects that the unit defines, and its tags of
// structs.
fn environment_with<'t>(
    alloc: Global,
    mode: Mode,
    defined_functions: FewNames<'t>,
    objects: FewNames<'t>,
    struct_tags: FewNames<'t>,
) -> Result<Environment<'t>, OutOfMemory>
    ensures { IfOk result (λ env. env_of env ≡ empty_env (record { mode = mode; functions = defined_functions.entry; objects = objects.entry; tags = struct_tags.entry })) }
{
    let structs = structs_with(alloc, &struct_tags)?;
    let names = Scopes::new(alloc);
    let enums = Numbering::new(alloc);
    let functions = Numbering::new(alloc);
    let tags = Numbering::new(alloc);
    Ok(Environment {
        mode,
        defined_functions,
        objects,
        struct_tags,
        names,
        depth: Count::zero(alloc),
        structs,
        enums,
        functions,
        tags,
        context: Context::Evaluated,
    })
}

// Lets names go.
fn let_go(_names: Numbering<'_>) {}

/// What is known before the items of a unit. `At` names the demand that the unit has few names.
pub fn environment_before<'t>(
    alloc: Global,
    mode: Mode,
    items: &'t [Item],
) -> Result<Environment<'t>, CheckError>
    ensures judged { AgreesWith (λ _. met) result (few_names (items_of items.now)) }
    ensures known { IfOk result (λ env. env_of env ≡ env_before mode (items_of items.now)) }
{
    let functions = functions_in(alloc, items)?;
    let Ok(objects) = objects_in(alloc, items) else {
        let_go(functions);
        return Err(CheckError::OutOfMemory);
    };
    let Ok(tags) = tags_of(alloc, items) else {
        let_go(functions);
        let_go(objects);
        return Err(CheckError::OutOfMemory);
    };
    if !are_all_few(&functions, &objects, &tags) {
        let_go(functions);
        let_go(objects);
        let_go(tags);
        return Err(CheckError::At(C13, 0));
    }
    let functions = FewNames::of(functions);
    let objects = FewNames::of(objects);
    let tags = FewNames::of(tags);
    Ok(environment_with(alloc, mode, functions, objects, tags)?)
}
