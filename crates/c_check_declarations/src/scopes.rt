ghost use Rattle.std.specs.Prelude.{◌≡◌, ◌+◌, ◌<◌, ◌^◌, length, OnOk};
ghost use Rattle.c_check_declarations.specs.Named.{name_of_param};
ghost use Rattle.c_rules.specs.Functions.{body_env, count_params, parameters_of, with_parameter, with_parameters};
ghost use Rattle.c_rules.specs.Scopes.{inside};
ghost use Rattle.c_check_values.specs.View.{env_of};
ghost use Rattle.c_syntax.specs.View.{declarator_of};
ghost use Rattle.c_syntax.specs.Writes.{params_of};
ghost use Rattle.c_tree.specs.View.{ctype_of, types_of};

use crate::declared::declare;
use crate::parameters::{name_of_param, parameters_of};
use c_check_values::{Environment, Meaning};
use c_syntax::{Declarator, Param};
use c_tree::{CType, copy_type};
use dm_base::OutOfMemory;
use std::alloc::Global;

// Declares the parameter with this number, where it has a name.
fn declare_parameter<'t>(
    alloc: Global,
    env: &mut Environment<'t>,
    number: u32,
    p: &'t Param,
    t: &CType,
) -> Result<(), OutOfMemory>
    ensures { OnOk result (env_of env.new ≡ with_parameter (env_of env.old) number (name_of_param p.now) (ctype_of t.now)) }
{
    match name_of_param(p) {
        Some(x) => {
            let seen = copy_type(alloc, t)?;
            let whole = copy_type(alloc, t)?;
            declare(
                env,
                x.name.as_slice(),
                Meaning::Local {
                    number,
                    seen,
                    whole,
                },
            )
        }
        None => Ok(()),
    }
}

// Declares parameters of these types, numbered from this one on.
fn declare_parameters<'t>(
    alloc: Global,
    env: &mut Environment<'t>,
    number: u32,
    ps: &'t [Param],
    ts: &[CType],
) -> Result<(), OutOfMemory>
    requires { number + length ps.now < 2 ^ 32 }
    ensures { OnOk result (env_of env.new ≡ with_parameters (env_of env.old) number (params_of ps.now) (types_of ts.now)) }
{
    match ps {
        [] => Ok(()),
        [p, ps @ ..] => match ts {
            [] => Ok(()),
            [t, ts @ ..] => {
                declare_parameter(alloc, env, number, p, t)?;
                declare_parameters(alloc, env, number + 1, ps, ts)
            }
        },
    }
}

/// Enters the scope of the body of the function that the declarator declares with parameters of these types, which stand in the same scope
/// (C99 6.2.1 paragraph 4).
pub fn enter_body<'t>(
    alloc: Global,
    env: &mut Environment<'t>,
    d: &'t Declarator,
    ts: &[CType],
) -> Result<(), OutOfMemory>
    requires { count_params (parameters_of (declarator_of d.now)) < 2 ^ 32 }
    ensures { OnOk result (env_of env.new ≡ body_env (env_of env.old) (declarator_of d.now) (types_of ts.now)) }
{
    let depth = env.depth.one_more()?;
    env.depth = depth;
    declare_parameters(alloc, env, 0, parameters_of(d), ts)
}
