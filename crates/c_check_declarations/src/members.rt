ghost use Rattle.std.specs.Prelude.{◌≡◌, reverse};
ghost use Rattle.c_check_values.specs.Agreement.{AgreesWith};
ghost use Rattle.c_rules.specs.Checked.{met};
ghost use Rattle.c_rules.specs.Items.{new_member};
ghost use Rattle.c_rules.specs.Names.{is_among};
ghost use Rattle.c_check_values.specs.View.{env_of};
ghost use Rattle.c_syntax.specs.View.{ident_of};

use c_check_values::{C2, C12, CheckError, Environment, Numbering, may_be_declared};
use c_syntax::Ident;

// Whether an earlier member has the name.
fn is_earlier(earlier: &Numbering<'_>, name: &[u8]) -> bool
    ensures { result ≡ is_among (reverse earlier.now) name.now }
{
    earlier.contains(name)
}

/// The demands on the name of a member, which no earlier member of its struct has (C99 6.7 paragraph 3, 7.1.3).
pub fn new_member(
    env: &Environment<'_>,
    earlier: &Numbering<'_>,
    x: &Ident,
) -> Result<(), CheckError>
    ensures { AgreesWith (λ _. met) result (new_member (env_of env.now) (reverse earlier.now) (ident_of x.now)) }
{
    let name = x.name.as_slice();
    if !may_be_declared(env.mode, name) {
        return Err(CheckError::At(C12, x.at));
    }
    if is_earlier(earlier, name) {
        return Err(CheckError::At(C2, x.at));
    }
    Ok(())
}
