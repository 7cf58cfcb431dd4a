ghost use Rattle.std.specs.Prelude.{◌≡◌};
ghost use Rattle.c_check_values.specs.Agreement.{AgreesWith};
ghost use Rattle.c_check_declarations.specs.Found.{meaning_found};
ghost use Rattle.c_rules.specs.Checked.{met};
ghost use Rattle.c_rules.specs.Functions.{is_defined_by};
ghost use Rattle.c_rules.specs.Items.{may_follow_object, object_name};
ghost use Rattle.c_rules.specs.Scopes.{declared_here};
ghost use Rattle.c_check_values.specs.View.{env_of};
ghost use Rattle.c_syntax.specs.View.{ident_of};
ghost use Rattle.c_tree.specs.View.{ctype_of};

use crate::declared::declared_here;
use crate::functions::is_defined_by;
use c_check_values::{
    C2, C11, C12, CheckError, Environment, Meaning, is_given, may_be_declared, same_type,
};
use c_syntax::Ident;
use c_tree::CType;

// Whether an object of this type may be declared or defined where the name means this (C99 6.7 paragraph 4, 6.9 paragraph 5).
fn may_follow_object(defined: bool, t: &CType, before: Option<&Meaning>) -> bool
    ensures { result ≡ may_follow_object defined (ctype_of t.now) (meaning_found before.entry) }
{
    match before {
        None => true,
        Some(means) => match means {
            Meaning::Static {
                whole,
                defined: was,
                ..
            } => {
                if !same_type(t, whole) {
                    return false;
                }
                !(defined && *was)
            }
            _ => false,
        },
    }
}

/// The demands on the name of an object of this type at file scope, which is declared or defined (C99 6.7 paragraph 4, 6.9 paragraph 5,
/// 7.1.3).
pub fn object_name(
    env: &Environment<'_>,
    defined: bool,
    x: &Ident,
    t: &CType,
) -> Result<(), CheckError>
    ensures { AgreesWith (λ _. met) result (object_name (env_of env.now) defined (ident_of x.now) (ctype_of t.now)) }
{
    let name = x.name.as_slice();
    if !may_be_declared(env.mode, name) {
        return Err(CheckError::At(C12, x.at));
    }
    if is_given(env.mode, name) {
        return Err(CheckError::At(C11, x.at));
    }
    if !may_follow_object(defined, t, declared_here(env, name)) {
        return Err(CheckError::At(C2, x.at));
    }
    Ok(())
}

/// Whether the name of a function or an object is defined behind a declaration that defines it or doesn't.
pub fn is_defined_behind(env: &Environment<'_>, defined: bool, name: &[u8]) -> bool
    ensures { result ≡ is_defined_by defined (declared_here (env_of env.now) name.now) }
{
    is_defined_by(defined, declared_here(env, name))
}
