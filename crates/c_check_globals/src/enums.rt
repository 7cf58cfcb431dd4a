ghost use Rattle.std.specs.Prelude.{◌≡◌, pos, IfOk, OnOk};
ghost use Rattle.c_check_units.specs.Agreement.{AgreesWith};
ghost use Rattle.c_rules.specs.Checked.{both, fine, met};
ghost use Rattle.c_rules.specs.Items.{behind_enum_tag, behind_enumerator, behind_enumerators, enumerator_meaning, enumerator_value, enumerators, new_enum, no_output};
ghost use Rattle.c_rules.specs.Scopes.{an_enumerator};
ghost use Rattle.c_rules.specs.Tags.{tags_of_enumerators};
ghost use Rattle.c_check_scopes.specs.View.{env_of};
ghost use Rattle.c_syntax.specs.UnitView.{enumerators_of, maybe_of, tag_of};
ghost use Rattle.c_syntax.specs.View.{ident_of};

use c_check_declarations::{
    declare, declare_enum, enumerator_constant, enumerator_value, new_enum, next_value,
};
use c_check_expressions::{folded_value, new_name};
use c_check_scopes::{Environment, Meaning};
use c_check_units::{CheckError, place_of_expression, tags_within};
use c_syntax::{Enumerator, Expr, Ident};
use std::alloc::Global;

// The value of an enumerator: that of its expression, or the next one (C99 6.7.2.2 paragraph 3).
fn value_of_enumerator<'t>(
    alloc: Global,
    env: &mut Environment<'t>,
    next: i64,
    x: &Ident,
    e: &'t Option<Expr>,
) -> Result<i32, CheckError>
    ensures judged { AgreesWith (λ v. v) result (enumerator_value (env_of env.old) (fine next) (ident_of x.now) (maybe_of e.now)) }
    ensures kept { OnOk result (env.new ≡ env.old) }
{
    match e {
        Some(e) => {
            let given = folded_value(alloc, env, e)?;
            enumerator_constant(place_of_expression(e), &given)
        }
        None => enumerator_value(x.at, next),
    }
}

// What an enumerator means.
fn enumerator_meaning<'t>(
    alloc: Global,
    env: &mut Environment<'t>,
    next: i64,
    x: &Ident,
    e: &'t Option<Expr>,
) -> Result<i32, CheckError>
    ensures judged { AgreesWith (λ v. an_enumerator v) result (enumerator_meaning (env_of env.old) (ident_of x.now) (enumerator_value (env_of env.old) (fine next) (ident_of x.now) (maybe_of e.now))) }
    ensures valued { IfOk result (λ v. enumerator_value (env_of env.old) (fine next) (ident_of x.now) (maybe_of e.now) ≡ fine v) }
    ensures kept { OnOk result (env.new ≡ env.old) }
{
    new_name(env, x)?;
    let value = value_of_enumerator(alloc, env, next, x, e)?;
    Ok(value)
}

// Declares an enumerator with its value (C99 6.2.1 paragraph 7).
fn declare_enumerator<'t>(
    alloc: Global,
    env: &mut Environment<'t>,
    next: i64,
    x: &'t Ident,
    e: &'t Option<Expr>,
) -> Result<i32, CheckError>
    ensures judged { AgreesWith (λ v. an_enumerator v) result (enumerator_meaning (env_of env.old) (ident_of x.now) (enumerator_value (env_of env.old) (fine next) (ident_of x.now) (maybe_of e.now))) }
    ensures valued { IfOk result (λ v. enumerator_value (env_of env.old) (fine next) (ident_of x.now) (maybe_of e.now) ≡ fine v) }
    ensures behind { OnOk result (env_of env.new ≡ behind_enumerator (env_of env.old) (ident_of x.now) (enumerator_value (env_of env.old) (fine next) (ident_of x.now) (maybe_of e.now))) }
{
    let value = enumerator_meaning(alloc, env, next, x, e)?;
    declare(env, x.name.as_slice(), Meaning::Enumerator(value))?;
    Ok(value)
}

// Declares enumerators in turn.
fn enumerators<'t>(
    alloc: Global,
    env: &mut Environment<'t>,
    es: &'t [Enumerator],
) -> Result<(), CheckError>
    ensures judged { AgreesWith (λ _. met) result (enumerators (env_of env.old) (fine (pos 0)) (enumerators_of es.now)) }
    ensures behind { OnOk result (env_of env.new ≡ behind_enumerators (env_of env.old) (fine (pos 0)) (enumerators_of es.now)) }
{
    let mut next = 0i64;
    for e in es {
        let value = declare_enumerator(alloc, env, next, &e.name, &e.value)?;
        next = next_value(value);
    }
    Ok(())
}

// Defines an enum (C99 6.7.2.2); its tag is declared behind its list (C99 6.7.2.3 paragraph 3).
pub fn enum_item<'t>(
    alloc: Global,
    env: &mut Environment<'t>,
    tag: &'t Option<Ident>,
    es: &'t [Enumerator],
) -> Result<(), CheckError>
    ensures judged { AgreesWith (λ _. no_output) result (both (new_enum (env_of env.old) (tag_of tag.now) (tags_of_enumerators (enumerators_of es.now))) (enumerators (env_of env.old) (fine (pos 0)) (enumerators_of es.now)) (λ _ _. fine no_output)) }
    ensures behind { OnOk result (env_of env.new ≡ behind_enum_tag (behind_enumerators (env_of env.old) (fine (pos 0)) (enumerators_of es.now)) (tag_of tag.now)) }
{
    let within = tags_within(alloc, es)?;
    new_enum(env, tag, &within)?;
    enumerators(alloc, env, es)?;
    declare_enum(env, tag)?;
    Ok(())
}
