ghost use Rattle.std.specs.Prelude.{◌≡◌, [], ◌∷◌, ◌++◌, reverse, Some, OnOk};
ghost use Rattle.c_check_units.specs.Agreement.{AgreesWith};
ghost use Rattle.c_check_globals.specs.Views.{member_seen};
ghost use Rattle.c_rules.specs.Checked.{gives, on};
ghost use Rattle.c_rules.specs.Declarators.{name_of, place_or};
ghost use Rattle.c_rules.specs.Expressions.{type_declared};
ghost use Rattle.c_rules.specs.Items.{member_declared, member_named, member_typed, members, members_declared, names_behind, with_option};
ghost use Rattle.c_check_scopes.specs.View.{env_of};
ghost use Rattle.c_check_declarations.specs.Members.{members_of};
ghost use Rattle.c_syntax.specs.UnitView.{declarators_of};
ghost use Rattle.c_syntax.specs.UnitView.{members_of as listed_members};
ghost use Rattle.c_syntax.specs.View.{declarator_of, ident_of, spec_of};
ghost use Rattle.c_tree.specs.View.{ctype_of};

use c_check_declarations::{member_typed, new_member};
use c_check_expressions::type_declared;
use c_check_scopes::{Environment, Numbering, StructMember};
use c_check_units::{C3, CheckError, name_of, place_of_declarator};
use c_syntax::{Declarator, Ident, Member, Spec};
use c_tree::CType;
use std::alloc::Global;

// The type of a member whose name is x: that of an object of known size (C99 6.7.2.1 paragraph 2).
fn member_type<'t>(
    alloc: Global,
    env: &mut Environment<'t>,
    at: u32,
    s: &'t Spec,
    d: &'t Declarator,
    x: &Ident,
) -> Result<CType, CheckError>
    ensures judged { AgreesWith ctype_of result (on (type_declared (env_of env.old) at (spec_of s.now) (declarator_of d.now)) (member_typed (env_of env.old) (place_or at (declarator_of d.now)) x.now.at)) }
    ensures kept { OnOk result (env.new ≡ env.old) }
{
    let ctype = type_declared(alloc, env, at, s, d)?;
    member_typed(env, place_of_declarator(d), x.at, &ctype)?;
    Ok(ctype)
}

// A member with its name (C99 6.7.2.1).
fn member_named<'t>(
    alloc: Global,
    env: &mut Environment<'t>,
    earlier: &Numbering<'t>,
    at: u32,
    s: &'t Spec,
    d: &'t Declarator,
    x: &'t Ident,
) -> Result<StructMember<'t>, CheckError>
    ensures judged { AgreesWith member_seen result (member_named (env_of env.old) (reverse earlier.now) at (spec_of s.now) (declarator_of d.now) (Some (ident_of x.now))) }
    ensures kept { OnOk result (env.new ≡ env.old) }
{
    new_member(env, earlier, x)?;
    let ctype = member_type(alloc, env, at, s, d, x)?;
    Ok(StructMember {
        name: x.name.as_slice(),
        ctype,
    })
}

// Adds the member that a declarator declares.
fn add_member<'t>(
    alloc: Global,
    env: &mut Environment<'t>,
    earlier: &mut Numbering<'t>,
    into: &mut Vec<StructMember<'t>>,
    at: u32,
    s: &'t Spec,
    d: &'t Declarator,
) -> Result<(), CheckError>
    ensures judged { AgreesWith (λ _. members_of into.new.items) result (gives (member_declared (env_of env.old) (reverse earlier.old) at (spec_of s.now) (declarator_of d.now)) (λ m. members_of into.old.items ++ m ∷ [])) }
    ensures named { OnOk result (reverse earlier.new ≡ with_option (name_of (declarator_of d.now)) (reverse earlier.old)) }
    ensures kept { OnOk result (env.new ≡ env.old) }
{
    match name_of(d) {
        Some(x) => {
            let member = member_named(alloc, env, earlier, at, s, d, x)?;
            earlier.push(x.name.as_slice())?;
            into.push(member)?;
            Ok(())
        }
        None => Err(CheckError::At(C3, place_of_declarator(d))),
    }
}

// Adds the members that declarators with the same specifiers declare.
fn add_members<'t>(
    alloc: Global,
    env: &mut Environment<'t>,
    earlier: &mut Numbering<'t>,
    into: &mut Vec<StructMember<'t>>,
    at: u32,
    s: &'t Spec,
    ds: &'t [Declarator],
) -> Result<(), CheckError>
    ensures judged { AgreesWith (λ _. members_of into.new.items) result (gives (members_declared (env_of env.old) (reverse earlier.old) at (spec_of s.now) (declarators_of ds.now)) (λ ms. members_of into.old.items ++ ms)) }
    ensures named { OnOk result (reverse earlier.new ≡ names_behind (reverse earlier.old) (declarators_of ds.now)) }
    ensures kept { OnOk result (env.new ≡ env.old) }
{
    for d in ds {
        add_member(alloc, env, earlier, into, at, s, d)?;
    }
    Ok(())
}

// The members of a struct, in order (C99 6.7.2.1).
pub fn members<'t>(
    alloc: Global,
    env: &mut Environment<'t>,
    ms: &'t [Member],
) -> Result<Vec<StructMember<'t>>, CheckError>
    ensures judged { AgreesWith (λ v. members_of v.items) result (members (env_of env.old) [] (listed_members ms.now)) }
    ensures kept { OnOk result (env.new ≡ env.old) }
{
    let mut earlier = Numbering::new(alloc);
    let mut into = Vec::new(alloc);
    for m in ms {
        add_members(
            alloc,
            env,
            &mut earlier,
            &mut into,
            m.at,
            &m.spec,
            &m.declarators,
        )?;
    }
    Ok(into)
}
