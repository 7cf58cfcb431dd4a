ghost use Rattle.std.specs.Prelude.{◌≡◌, reverse, OnOk};
ghost use Rattle.c_check_values.specs.Agreement.{AgreesWith};
ghost use Rattle.c_rules.specs.Checked.{met};
ghost use Rattle.c_rules.specs.Items.{is_incomplete, new_struct, tag_declaration, new_enum, behind_enum_tag};
ghost use Rattle.c_rules.specs.Names.{is_among};
ghost use Rattle.c_rules.specs.Scopes.{struct_of, tag_number};
ghost use Rattle.c_check_values.specs.View.{env_of};
ghost use Rattle.c_syntax.specs.Tree.{tag};
ghost use Rattle.c_syntax.specs.UnitView.{tag_of};
ghost use Rattle.c_syntax.specs.View.{ident_of};

use c_check_values::{C2, C12, CheckError, Environment, Numbering, may_be_declared};
use c_syntax::Ident;
use dm_base::OutOfMemory;

/// The demands on a tag of a struct that is declared alone: it names no enum (C99 6.7.2.3 paragraphs 1 and 7, 7.1.3).
pub fn tag_declaration(env: &Environment<'_>, x: &Ident) -> Result<(), CheckError>
    ensures { AgreesWith (λ _. met) result (tag_declaration (env_of env.now) (ident_of x.now)) }
{
    let tag = x.name.as_slice();
    if !may_be_declared(env.mode, tag) {
        return Err(CheckError::At(C12, x.at));
    }
    if env.is_enum(tag) {
        return Err(CheckError::At(C2, x.at));
    }
    Ok(())
}

// Whether the struct with this tag has no definition yet.
fn is_incomplete(env: &Environment<'_>, tag: &[u8]) -> bool
    ensures { result ≡ is_incomplete (struct_of (env_of env.now) (tag_number (env_of env.now) tag.now)) }
{
    env.members(env.tag_number(tag)).is_none()
}

/// The demands on the tag of a struct that is defined: it has one definition, and names no enum (C99 6.7.2.3
/// paragraph 1, 7.1.3).
pub fn new_struct(env: &Environment<'_>, x: &Ident) -> Result<(), CheckError>
    ensures { AgreesWith (λ _. met) result (new_struct (env_of env.now) (ident_of x.now)) }
{
    let tag = x.name.as_slice();
    if !may_be_declared(env.mode, tag) {
        return Err(CheckError::At(C12, x.at));
    }
    if !is_incomplete(env, tag) {
        return Err(CheckError::At(C2, x.at));
    }
    if env.is_enum(tag) {
        return Err(CheckError::At(C2, x.at));
    }
    Ok(())
}

// Whether the tag of a struct stands in an earlier item.
fn is_mentioned(env: &Environment<'_>, tag: &[u8]) -> bool
    ensures { result ≡ is_among (env_of env.now).tags tag.now }
{
    env.tags.contains(tag)
}

// Whether the tag stands among these, of which the last one is the first.
fn is_within(within: &Numbering<'_>, tag: &[u8]) -> bool
    ensures { result ≡ is_among (reverse within.now) tag.now }
{
    within.contains(tag)
}

// The demands on the tag of an enum, in whose list these tags of structs stand.
fn new_enum_tag(env: &Environment<'_>, x: &Ident, within: &Numbering<'_>) -> Result<(), CheckError>
    ensures { AgreesWith (λ _. met) result (new_enum (env_of env.now) (tag (ident_of x.now)) (reverse within.now)) }
{
    let tag = x.name.as_slice();
    if !may_be_declared(env.mode, tag) {
        return Err(CheckError::At(C12, x.at));
    }
    if env.is_enum(tag) {
        return Err(CheckError::At(C2, x.at));
    }
    if is_mentioned(env, tag) {
        return Err(CheckError::At(C2, x.at));
    }
    if is_within(within, tag) {
        return Err(CheckError::At(C2, x.at));
    }
    Ok(())
}

/// The demands on the tag of an enum that is defined, where one stands: it has one definition, and names no struct, also within its list,
/// in which these tags of structs stand, the last one first (C99 6.7.2.3 paragraph 1, 7.1.3).
pub fn new_enum(
    env: &Environment<'_>,
    tag: &Option<Ident>,
    within: &Numbering<'_>,
) -> Result<(), CheckError>
    ensures { AgreesWith (λ _. met) result (new_enum (env_of env.now) (tag_of tag.now) (reverse within.now)) }
{
    match tag {
        Some(x) => new_enum_tag(env, x, within),
        None => Ok(()),
    }
}

/// Adds the tag of an enum to those that stand before.
pub fn declare_enum<'t>(
    env: &mut Environment<'t>,
    tag: &'t Option<Ident>,
) -> Result<(), OutOfMemory>
    ensures { OnOk result (env_of env.new ≡ behind_enum_tag (env_of env.old) (tag_of tag.now)) }
{
    match tag {
        Some(x) => env.enums.push(x.name.as_slice()),
        None => Ok(()),
    }
}
