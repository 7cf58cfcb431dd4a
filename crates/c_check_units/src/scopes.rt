ghost use Rattle.std.specs.Prelude.{◌≡◌, length};
ghost use Rattle.c_check_units.specs.Scoped.{IsWithin};
ghost use Rattle.c_rules.specs.Scopes.{Env};
ghost use Rattle.c_check_values.specs.View.{env_of};

use c_check_values::Environment;
use dm_counts::Count;

/// Leaves scopes and names that were entered since so many names were declared at this depth.
pub fn leave(env: &mut Environment<'_>, count: usize, depth: Count)
    ensures { (e : Env) → IsWithin (env_of env.old) e → length e.names ≡ count → e.depth ≡ depth → env_of env.new ≡ e }
{
    env.names.leave(count);
    env.depth = depth;
}

/// How many names are declared.
#[tactic(auto, using(crate::proofs::ScopeLemmas::names_counted))]
pub fn count_names(env: &Environment<'_>) -> usize
    ensures { length (env_of env.now).names ≡ result }
{
    env.names.len()
}
