ghost use Rattle.std.specs.Prelude.{◌≡◌, codes};
ghost use Rattle.c_rules.specs.Scopes.{binding_of};
ghost use Rattle.c_rules.specs.Types.{same_type, same_types};
ghost use Rattle.c_rules.specs.Units.{is_main_meant, is_main_bound};
ghost use Rattle.c_check_values.specs.Bound.{meaning_of};
ghost use Rattle.c_check_values.specs.View.{env_of};
ghost use Rattle.c_tree.specs.Functions.{int, of_none};
ghost use Rattle.c_tree.specs.Tree.{no_types};
ghost use Rattle.c_tree.specs.View.{ctype_of, types_of};

use c_check_values::{Environment, Meaning};
use c_tree::{CType, IntType};

fn is_int(t: &CType) -> bool
    ensures { result ≡ same_type (ctype_of t.now) int }
{
    match t {
        CType::Int(i) => *i == IntType::Int,
        _ => false,
    }
}

// Whether there are no parameters.
fn are_none(ts: &[CType]) -> bool
    ensures { result ≡ same_types (types_of ts.now) no_types }
{
    match ts {
        [] => true,
        _ => false,
    }
}

// Whether it is the type int(void).
fn is_type_of_main(t: &CType) -> bool
    ensures { result ≡ same_type (ctype_of t.now) (of_none int) }
{
    match t {
        CType::Function(gives, takes) => {
            if !is_int(gives) {
                return false;
            }
            are_none(takes)
        }
        _ => false,
    }
}

// Whether the name of `main` means what it has to.
fn is_main_meant(means: &Meaning) -> bool
    ensures { result ≡ is_main_meant (meaning_of means.now) }
{
    match means {
        Meaning::Function { ctype, defined } => {
            if !*defined {
                return false;
            }
            is_type_of_main(ctype)
        }
        _ => false,
    }
}

/// Whether `int main(void)` is defined (C99 5.1.2.2.1).
pub fn has_main(env: &Environment<'_>) -> bool
    ensures { result ≡ is_main_bound (binding_of (env_of env.now) (codes "main")) }
{
    match env.names.find(b"main") {
        Some(entry) => is_main_meant(&entry.means),
        None => false,
    }
}
