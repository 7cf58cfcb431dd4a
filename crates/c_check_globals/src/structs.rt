ghost use Rattle.std.specs.Prelude.{◌≡◌, [], OnOk};
ghost use Rattle.c_check_units.specs.Agreement.{AgreesWith};
ghost use Rattle.c_rules.specs.Checked.{gives, on};
ghost use Rattle.c_rules.specs.Items.{members, no_output, struct_definition, struct_laid, struct_or_unknown, tag_declaration};
ghost use Rattle.c_rules.specs.Scopes.{defined_struct, with_struct};
ghost use Rattle.c_check_scopes.specs.View.{env_of};
ghost use Rattle.c_check_declarations.specs.Members.{members_of};
ghost use Rattle.c_syntax.specs.UnitView.{members_of as listed_members};
ghost use Rattle.c_syntax.specs.View.{ident_of};

use crate::members::members;
use c_check_declarations::{define_struct, new_struct, struct_laid, tag_declaration};
use c_check_scopes::{Environment, StructMember};
use c_check_units::CheckError;
use c_syntax::{Ident, Member};
use std::alloc::Global;

// The members of a struct within the limits on them.
fn laid_members<'t>(
    alloc: Global,
    env: &mut Environment<'t>,
    x: &Ident,
    ms: &'t [Member],
) -> Result<Vec<StructMember<'t>>, CheckError>
    ensures judged { AgreesWith (λ v. defined_struct (members_of v.items)) result (on (members (env_of env.old) [] (listed_members ms.now)) (struct_laid (env_of env.old) (ident_of x.now))) }
    ensures kept { OnOk result (env.new ≡ env.old) }
{
    let members = members(alloc, env, ms)?;
    struct_laid(env, x, &members)?;
    Ok(members)
}

// The definition of a struct (C99 6.7.2.1).
fn struct_definition<'t>(
    alloc: Global,
    env: &mut Environment<'t>,
    x: &Ident,
    ms: &'t [Member],
) -> Result<Vec<StructMember<'t>>, CheckError>
    ensures judged { AgreesWith (λ v. defined_struct (members_of v.items)) result (struct_definition (env_of env.old) (ident_of x.now) (listed_members ms.now)) }
    ensures kept { OnOk result (env.new ≡ env.old) }
{
    new_struct(env, x)?;
    laid_members(alloc, env, x, ms)
}

// Defines a struct.
pub fn struct_item<'t>(
    alloc: Global,
    env: &mut Environment<'t>,
    x: &Ident,
    ms: &'t [Member],
) -> Result<(), CheckError>
    ensures judged { AgreesWith (λ _. no_output) result (gives (struct_definition (env_of env.old) (ident_of x.now) (listed_members ms.now)) (λ _. no_output)) }
    ensures behind { OnOk result (env_of env.new ≡ with_struct (env_of env.old) x.now.name (struct_or_unknown (struct_definition (env_of env.old) (ident_of x.now) (listed_members ms.now)))) }
{
    let members = struct_definition(alloc, env, x, ms)?;
    define_struct(env, x.name.as_slice(), members);
    Ok(())
}

// Declares a tag of a struct alone.
pub fn tag_item(env: &Environment<'_>, x: &Ident) -> Result<(), CheckError>
    ensures { AgreesWith (λ _. no_output) result (gives (tag_declaration (env_of env.now) (ident_of x.now)) (λ _. no_output)) }
{
    tag_declaration(env, x)
}
