ghost use Rattle.std.specs.Prelude.{◌≡◌, ◌∷◌, [], OnOk};
ghost use Rattle.c_check_bodies.specs.Named.{name_of_part};
ghost use Rattle.c_check_bodies.specs.Numbered.{HaveNumbers, next_of};
ghost use Rattle.c_check_declarations.specs.Agreement.{AgreesWith};
ghost use Rattle.c_check_bodies.specs.StatementTreeView.{statement_trees_of, statement_tree_of};
ghost use Rattle.c_check_bodies.specs.Scoped.{Declares};
ghost use Rattle.c_rules.specs.Blocks.{after_decl, after_part, behind_decl, behind_part, behind_parts, held_by_parts, local_decl, local_part, local_parts, past_part};
ghost use Rattle.c_rules.specs.Counts.{past};
ghost use Rattle.c_rules.specs.Variables.{calls_of_parts, names_of_decl, names_of_parts, past_names};
ghost use Rattle.c_check_scopes.specs.View.{before_of, env_of};
ghost use Rattle.c_syntax.specs.UnitView.{decl_of, maybe_init_of, parts_of};
ghost use Rattle.c_syntax.specs.View.{declarator_of, spec_of};

use crate::locals::{local_named, place_of};
use c_check_bodies::{
    Next, StatementTree, StatementTrees, name_of, no_statements, past_part, pushed,
};
use c_check_declarations::{C3, CheckError};
use c_check_scopes::{Before, Environment};
use c_syntax::{Decl, DeclPart, Spec};
use std::alloc::Global;

// One declarator with its initialiser.
fn named_part<'t>(
    alloc: Global,
    env: &mut Environment<'t>,
    before: &mut Before<'t>,
    next: Next,
    at: u32,
    spec: &'t Spec,
    part: &'t DeclPart,
) -> Result<StatementTree, CheckError>
    ensures judged { AgreesWith statement_tree_of result (local_part (env_of env.old) (before_of before.old) (next_of next) at (spec_of spec.now) (declarator_of part.now.declarator) (maybe_init_of part.now.init)) }
    ensures counted { OnOk result (before_of before.new ≡ after_part (env_of env.old) (before_of before.old) at (spec_of spec.now) (declarator_of part.now.declarator) (maybe_init_of part.now.init)) }
    ensures meant { OnOk result (env_of env.new ≡ behind_part (env_of env.old) (next_of next) at (spec_of spec.now) (declarator_of part.now.declarator) (maybe_init_of part.now.init)) }
    ensures kept { OnOk result (Declares env.old env.new) }
{
    let d = &part.declarator;
    match name_of(d) {
        Some(x) => local_named(alloc, env, before, next, at, spec, d, x, &part.init),
        None => Err(CheckError::At(C3, place_of(at, d))),
    }
}

// The same, with the numbers behind it.
fn local_part<'t>(
    alloc: Global,
    env: &mut Environment<'t>,
    before: &mut Before<'t>,
    next: &mut Next,
    at: u32,
    spec: &'t Spec,
    part: &'t DeclPart,
) -> Result<StatementTree, CheckError>
    requires { HaveNumbers (next_of next.old) (name_of_part part.now ∷ []) }
    ensures judged { AgreesWith statement_tree_of result (local_part (env_of env.old) (before_of before.old) (next_of next.old) at (spec_of spec.now) (declarator_of part.now.declarator) (maybe_init_of part.now.init)) }
    ensures counted { OnOk result (before_of before.new ≡ after_part (env_of env.old) (before_of before.old) at (spec_of spec.now) (declarator_of part.now.declarator) (maybe_init_of part.now.init)) }
    ensures meant { OnOk result (env_of env.new ≡ behind_part (env_of env.old) (next_of next.old) at (spec_of spec.now) (declarator_of part.now.declarator) (maybe_init_of part.now.init)) }
    ensures numbered { OnOk result (next_of next.new ≡ past_part (next_of next.old) (declarator_of part.now.declarator)) }
    ensures kept { OnOk result (Declares env.old env.new) }
{
    let own = *next;
    *next = past_part(own, &part.declarator);
    named_part(alloc, env, before, own, at, spec, part)
}

// Declarators, one variable for each.
fn local_parts<'t>(
    alloc: Global,
    env: &mut Environment<'t>,
    before: &mut Before<'t>,
    next: &mut Next,
    at: u32,
    spec: &'t Spec,
    parts: &'t [DeclPart],
) -> Result<StatementTrees, CheckError>
    requires { HaveNumbers (next_of next.old) (names_of_parts (parts_of parts.now)) }
    ensures judged { AgreesWith statement_trees_of result (local_parts (env_of env.old) (before_of before.old) (next_of next.old) at (spec_of spec.now) (parts_of parts.now)) }
    ensures counted { OnOk result (before_of before.new ≡ past (before_of before.old) (calls_of_parts (parts_of parts.now)) (held_by_parts (env_of env.old) (next_of next.old) at (spec_of spec.now) (parts_of parts.now))) }
    ensures meant { OnOk result (env_of env.new ≡ behind_parts (env_of env.old) (next_of next.old) at (spec_of spec.now) (parts_of parts.now)) }
    ensures numbered { OnOk result (next_of next.new ≡ past_names (next_of next.old) (names_of_parts (parts_of parts.now))) }
    ensures kept { OnOk result (Declares env.old env.new) }
{
    let mut laid = no_statements(alloc);
    for part in parts {
        let one = local_part(alloc, env, before, next, at, spec, part)?;
        laid = pushed(laid, one)?;
    }
    Ok(laid)
}

/// A declaration in a block (C99 6.7): its variables are declared behind it, and have the next numbers.
pub fn local_decl<'t>(
    alloc: Global,
    env: &mut Environment<'t>,
    before: &mut Before<'t>,
    next: &mut Next,
    decl: &'t Decl,
) -> Result<StatementTrees, CheckError>
    requires { HaveNumbers (next_of next.old) (names_of_decl (decl_of decl.now)) }
    ensures judged { AgreesWith statement_trees_of result (local_decl (env_of env.old) (before_of before.old) (next_of next.old) (decl_of decl.now)) }
    ensures counted { OnOk result (before_of before.new ≡ after_decl (env_of env.old) (before_of before.old) (next_of next.old) (decl_of decl.now)) }
    ensures meant { OnOk result (env_of env.new ≡ behind_decl (env_of env.old) (next_of next.old) (decl_of decl.now)) }
    ensures numbered { OnOk result (next_of next.new ≡ past_names (next_of next.old) (names_of_decl (decl_of decl.now))) }
    ensures kept { OnOk result (Declares env.old env.new) }
{
    local_parts(alloc, env, before, next, decl.at, &decl.spec, &decl.parts)
}
