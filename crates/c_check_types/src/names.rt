ghost use Rattle.std.specs.Prelude.{is_some, ◌≡◌};
ghost use Rattle.c_check_values.specs.Agreement.{AgreesWith};
ghost use Rattle.c_rules.specs.Checked.{met};
ghost use Rattle.c_rules.specs.Declarators.{free_name, new_name};
ghost use Rattle.c_rules.specs.Scopes.{declared_here};
ghost use Rattle.c_check_values.specs.View.{env_of};
ghost use Rattle.c_syntax.specs.View.{ident_of};

use c_check_values::{C2, C11, C12, CheckError, Environment, is_given, may_be_declared};
use c_syntax::Ident;

/// A name that may be declared, and that isn't a system call's or a null call's.
pub fn free_name(env: &Environment<'_>, x: &Ident) -> Result<(), CheckError>
    ensures { AgreesWith (λ _. met) result (free_name (env_of env.now) (ident_of x.now)) }
{
    let name = x.name.as_slice();
    if !may_be_declared(env.mode, name) {
        return Err(CheckError::At(C12, x.at));
    }
    if is_given(env.mode, name) {
        return Err(CheckError::At(C11, x.at));
    }
    Ok(())
}

/// A name that is declared once in its scope (C99 6.7 paragraph 3).
pub fn new_name(env: &Environment<'_>, x: &Ident) -> Result<(), CheckError>
    ensures { AgreesWith (λ _. met) result (new_name (env_of env.now) (ident_of x.now)) }
{
    free_name(env, x)?;
    if env.is_declared_here(x.name.as_slice()) {
        return Err(CheckError::At(C2, x.at));
    }
    Ok(())
}
