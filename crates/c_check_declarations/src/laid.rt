ghost use Rattle.std.specs.Prelude.{◌≡◌, ◌≤◌, length, map, nat_le};
ghost use Rattle.c_check_values.specs.Agreement.{AgreesWith};
ghost use Rattle.c_rules.specs.Items.{struct_laid};
ghost use Rattle.c_rules.specs.Limits.{most_cells, most_members};
ghost use Rattle.c_rules.specs.Scopes.{defined_struct, incomplete, layout_of, struct_of, tag_number, type_of_member, with_struct};
ghost use Rattle.c_check_values.specs.Held.{AllInAll, IsDefined};
ghost use Rattle.c_check_values.specs.View.{env_of};
ghost use Rattle.c_check_declarations.specs.Members.{members_of};
ghost use Rattle.c_syntax.specs.View.{ident_of};
ghost use Rattle.c_tree.specs.Layout.{cells_of_all};

use c_check_values::{C13, CheckError, Environment, StructMember};
use c_syntax::Ident;

// Whether there aren't too many members.
#[tactic(auto, using(crate::proofs::MemberLemmas::count_is))]
fn are_few(members: &[StructMember<'_>]) -> bool
    ensures { result ≡ nat_le (length (members_of members.now)) most_members }
{
    members.len() <= 256
}

// Whether they don't have too many cells.
#[tactic(auto, using(crate::proofs::MemberLemmas::types_are))]
fn are_small(env: &Environment<'_>, members: &[StructMember<'_>]) -> bool
    ensures { result ≡ nat_le (cells_of_all (layout_of (env_of env.now)) (map type_of_member (members_of members.now))) most_cells }
{
    match env.cells_of_all(members) {
        Some(cells) => cells <= 65536,
        None => false,
    }
}

/// The limits on a struct with these members (C99 5.2.4.1).
pub fn struct_laid(
    env: &Environment<'_>,
    x: &Ident,
    members: &[StructMember<'_>],
) -> Result<(), CheckError>
    ensures { AgreesWith (λ _. defined_struct (members_of members.now)) result (struct_laid (env_of env.now) (ident_of x.now) (members_of members.now)) }
{
    if !are_few(members) {
        return Err(CheckError::At(C13, x.at));
    }
    if !are_small(env, members) {
        return Err(CheckError::At(C13, x.at));
    }
    Ok(())
}

/// Gives the struct with this tag, which has no definition yet, its members: they hold structs with definitions alone, and are within the
/// limit on the cells of a struct.
pub fn define_struct<'t>(env: &mut Environment<'t>, tag: &[u8], members: Vec<StructMember<'t>>)
    requires open { struct_of (env_of env.old) (tag_number (env_of env.old) tag.now) ≡ incomplete }
    requires known { AllInAll (IsDefined (layout_of (env_of env.old))) (map type_of_member (members_of members.items)) }
    requires few { cells_of_all (layout_of (env_of env.old)) (map type_of_member (members_of members.items)) ≤ most_cells }
    ensures { env_of env.new ≡ with_struct (env_of env.old) tag.now (defined_struct (members_of members.entry.items)) }
{
    let number = env.tag_number(tag);
    env.structs.define(number, members);
}
