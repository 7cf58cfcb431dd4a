ghost use Rattle.std.specs.Prelude.{◌≡◌, OnOk};
ghost use Rattle.c_check_values.specs.Agreement.{AgreesWith};
ghost use Rattle.c_check_declarations.specs.Found.{meaning_found};
ghost use Rattle.c_rules.specs.Checked.{fine};
ghost use Rattle.c_rules.specs.Functions.{is_as_given, may_follow_function, is_defined_by, is_few, function_meaning, behind_function};
ghost use Rattle.c_rules.specs.Limits.{most_functions};
ghost use Rattle.c_check_values.specs.Bound.{meaning_of};
ghost use Rattle.c_check_values.specs.View.{env_of};
ghost use Rattle.c_syntax.specs.View.{ident_of};
ghost use Rattle.c_tree.specs.View.{ctype_of};

use crate::declared::{declare, declared_here};
use c_check_values::{
    C2, C11, C12, C13, CheckError, Environment, Meaning, given_number, has_given_type,
    may_be_declared, same_type,
};
use c_syntax::Ident;
use c_tree::CType;
use dm_base::{Mode, OutOfMemory};

// Whether a name of a system call or of a null call is declared with its type, and has no definition.
fn is_as_given(env: &Environment<'_>, defined: bool, name: &[u8], t: &CType) -> bool
    ensures { result ≡ is_as_given (env_of env.now) defined name.now (ctype_of t.now) }
{
    match given_number(env.mode, name) {
        Some(number) => {
            if defined {
                return false;
            }
            has_given_type(env.mode, number, t)
        }
        None => true,
    }
}

// Whether a function of this type may be declared or defined where the name means this (C99 6.7 paragraph 4, 6.9 paragraph 5).
fn may_follow_function(defined: bool, t: &CType, before: Option<&Meaning>) -> bool
    ensures { result ≡ may_follow_function defined (ctype_of t.now) (meaning_found before.entry) }
{
    match before {
        None => true,
        Some(means) => match means {
            Meaning::Function {
                ctype,
                defined: was,
            } => {
                if !same_type(t, ctype) {
                    return false;
                }
                !(defined && *was)
            }
            _ => false,
        },
    }
}

// Whether a definition stands before, or is this one.
pub fn is_defined_by(defined: bool, before: Option<&Meaning>) -> bool
    ensures { result ≡ is_defined_by defined (meaning_found before.entry) }
{
    match before {
        None => defined,
        Some(means) => match means {
            Meaning::Function { defined: was, .. } => defined || *was,
            Meaning::Static { defined: was, .. } => defined || *was,
            _ => defined,
        },
    }
}

// How many functions there may be.
fn most_functions(mode: Mode) -> usize
    ensures { result ≡ most_functions mode }
{
    match mode {
        Mode::Plain => 4096,
        Mode::Instrumented => 4098,
    }
}

// Whether there aren't too many functions with this one.
fn is_few(env: &Environment<'_>, name: &[u8]) -> bool
    ensures { result ≡ is_few (env_of env.now) name.now }
{
    if env.functions.contains(name) {
        return true;
    }
    env.functions.len() < most_functions(env.mode)
}

/// What the name of a function of this type means behind its declaration or definition, with the demands on the name (C99 6.7 paragraph 4,
/// 6.9 paragraph 5, 7.1.3).
pub fn function_meaning(
    env: &Environment<'_>,
    defined: bool,
    x: &Ident,
    t: CType,
) -> Result<Meaning, CheckError>
    ensures { AgreesWith meaning_of result (function_meaning (env_of env.now) defined (ident_of x.now) (ctype_of t)) }
{
    let name = x.name.as_slice();
    if !may_be_declared(env.mode, name) {
        return Err(CheckError::At(C12, x.at));
    }
    if !is_as_given(env, defined, name, &t) {
        return Err(CheckError::At(C11, x.at));
    }
    let before = declared_here(env, name);
    if !may_follow_function(defined, &t, before) {
        return Err(CheckError::At(C2, x.at));
    }
    if !is_few(env, name) {
        return Err(CheckError::At(C13, x.at));
    }
    let defined = is_defined_by(defined, before);
    Ok(Meaning::Function { ctype: t, defined })
}

/// Declares the name of a function with what it means.
pub fn declare_function<'t>(
    env: &mut Environment<'t>,
    name: &'t [u8],
    means: Meaning,
) -> Result<(), OutOfMemory>
    ensures { OnOk result (env_of env.new ≡ behind_function (env_of env.old) name.now (fine (meaning_of means))) }
{
    env.functions.add(name)?;
    declare(env, name, means)
}
