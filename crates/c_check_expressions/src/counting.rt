ghost use Rattle.std.specs.Prelude.{◌≡◌, [], ◌∷◌, OnOk};
ghost use Rattle.c_check_types.specs.Agreement.{AgreesWith};
ghost use Rattle.c_check_types.specs.TypedExpressionView.{typed_expression_of};
ghost use Rattle.c_rules.specs.Counts.{past};
ghost use Rattle.c_rules.specs.PostfixExpressions.{site_of};
ghost use Rattle.c_rules.specs.PrimaryExpressions.{string_expression};
ghost use Rattle.c_check_counts.specs.View.{before_of, env_of};

use c_check_counts::{Before, Environment};
use c_check_primary::{site_of, string_expression};
use c_check_types::{CheckError, TypedExpression};
use std::alloc::Global;

// The site of a call, which then stands before.
pub fn next_site(env: &Environment<'_>, before: &mut Before<'_>, at: u32) -> Result<u32, CheckError>
    ensures judged { AgreesWith (λ n. n) result (site_of (env_of env.now) (before_of before.old).sites at) }
    ensures counted { OnOk result (before_of before.new ≡ past (before_of before.old) 1 []) }
{
    let site = site_of(env, before.sites(), at)?;
    before.count_call()?;
    Ok(site)
}

// A string, which then stands before.
pub fn next_string<'t>(
    alloc: Global,
    env: &Environment<'t>,
    before: &mut Before<'t>,
    at: u32,
    bytes: &'t [u8],
) -> Result<TypedExpression, CheckError>
    ensures judged { AgreesWith typed_expression_of result (string_expression (env_of env.now) (before_of before.old) at bytes.now) }
    ensures counted { OnOk result (before_of before.new ≡ past (before_of before.old) 0 (bytes.now ∷ [])) }
{
    let given = string_expression(alloc, env, before, at, bytes)?;
    before.count_string(bytes)?;
    Ok(given)
}
