ghost use Rattle.std.specs.Prelude.{◌≡◌, OnOk};
ghost use Rattle.c_rules.specs.Scopes.{declared_here, with_name};
ghost use Rattle.c_check_declarations.specs.Found.{meaning_found};
ghost use Rattle.c_check_values.specs.Bound.{meaning_of};
ghost use Rattle.c_check_values.specs.View.{env_of};

use c_check_values::{Environment, Meaning};
use dm_base::OutOfMemory;

/// What the name means, where it is declared in the innermost scope (C99 6.2.1 paragraph 4).
pub fn declared_here<'e>(env: &'e Environment<'_>, name: &[u8]) -> Option<&'e Meaning>
    ensures { meaning_found result ≡ declared_here (env_of env.now) name.now }
{
    match env.names.find(name) {
        Some(entry) => {
            if entry.depth.is(&env.depth) {
                return Some(&entry.means);
            }
            None
        }
        None => None,
    }
}

/// Declares the name in the innermost scope.
pub fn declare<'t>(
    env: &mut Environment<'t>,
    name: &'t [u8],
    means: Meaning,
) -> Result<(), OutOfMemory>
    ensures { OnOk result (env_of env.new ≡ with_name (env_of env.old) name.now (meaning_of means)) }
{
    let depth = env.depth.copy()?;
    env.names.declare(name, depth, means)
}
