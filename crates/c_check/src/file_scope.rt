ghost use Rattle.std.specs.Prelude.{◌≡◌, OnOk};
ghost use Rattle.c_check_units.specs.Agreement.{AgreesWith};
ghost use Rattle.c_check_units.specs.OutputView.{output_of};
ghost use Rattle.c_rules.specs.Checked.{gives};
ghost use Rattle.c_rules.specs.Items.{after_item, after_items, behind_by_form, behind_item, behind_items, item, items, with_output};
ghost use Rattle.c_check_statements.specs.View.{before_of, env_of};
ghost use Rattle.c_syntax.specs.UnitView.{item_at, items_of};

use crate::functions::function_item;
use c_check_globals::{add_parts, enum_item, struct_item, tag_item};
use c_check_statements::{Before, Environment};
use c_check_units::{CheckError, Output, no_output, push_tags};
use c_syntax::{Item, ItemKind};
use std::alloc::Global;

// Adds what an item defines; the tags of structs in it aren't told yet.
#[tactic(auto, using(crate::proofs::Outputs::nothing_more))]
fn add_by_form<'t>(
    alloc: Global,
    env: &mut Environment<'t>,
    before: &mut Before<'t>,
    into: &mut Output,
    each: &'t Item,
) -> Result<(), CheckError>
    ensures judged { AgreesWith (λ _. output_of into.new) result (gives (item (env_of env.old) (before_of before.old) (item_at each.now.at each.now.kind)) (with_output (output_of into.old))) }
    ensures behind { OnOk result (env_of env.new ≡ behind_by_form (env_of env.old) (before_of before.old) (item_at each.now.at each.now.kind)) }
    ensures counted { OnOk result (before_of before.new ≡ after_item (env_of env.old) (before_of before.old) (item_at each.now.at each.now.kind)) }
{
    match &each.kind {
        ItemKind::Struct { tag, members } => struct_item(alloc, env, tag, members),
        ItemKind::Enum { tag, list } => enum_item(alloc, env, tag, list),
        ItemKind::Tag(tag) => tag_item(env, tag),
        ItemKind::Declaration(decl) => add_parts(
            alloc,
            env,
            before,
            into,
            decl.at,
            decl.storage,
            &decl.spec,
            &decl.parts,
        ),
        ItemKind::Function {
            spec,
            declarator,
            body,
            ..
        } => function_item(alloc, env, before, into, each.at, spec, declarator, body),
    }
}

// Adds what an item defines.
fn add_item<'t>(
    alloc: Global,
    env: &mut Environment<'t>,
    before: &mut Before<'t>,
    into: &mut Output,
    each: &'t Item,
) -> Result<(), CheckError>
    ensures judged { AgreesWith (λ _. output_of into.new) result (gives (item (env_of env.old) (before_of before.old) (item_at each.now.at each.now.kind)) (with_output (output_of into.old))) }
    ensures behind { OnOk result (env_of env.new ≡ behind_item (env_of env.old) (before_of before.old) (item_at each.now.at each.now.kind)) }
    ensures counted { OnOk result (before_of before.new ≡ after_item (env_of env.old) (before_of before.old) (item_at each.now.at each.now.kind)) }
{
    add_by_form(alloc, env, before, into, each)?;
    push_tags(alloc, &mut env.tags, each)?;
    Ok(())
}

/// What items give, in the order of the text, where so much of the unit stands before them (C99 6.9); `env` and `before` become what is known
/// behind them and what stands before their end. An error names a demand on them that fails, or is `OutOfMemory`.
pub fn items<'t>(
    alloc: Global,
    env: &mut Environment<'t>,
    before: &mut Before<'t>,
    all: &'t [Item],
) -> Result<Output, CheckError>
    ensures judged { AgreesWith output_of result (items (env_of env.old) (before_of before.old) (items_of all.now)) }
    ensures behind { OnOk result (env_of env.new ≡ behind_items (env_of env.old) (before_of before.old) (items_of all.now)) }
    ensures counted { OnOk result (before_of before.new ≡ after_items (env_of env.old) (before_of before.old) (items_of all.now)) }
{
    let mut into = no_output(alloc);
    for each in all {
        add_item(alloc, env, before, &mut into, each)?;
    }
    Ok(into)
}
