ghost use Rattle.std.specs.Prelude.{◌≡◌, ℕ};
ghost use Rattle.c_check_units.specs.Forms.{stands_alone};
ghost use Rattle.c_rules.specs.Counts.{place_of};
ghost use Rattle.c_rules.specs.Declarators.{place_or};
ghost use Rattle.c_rules.specs.Functions.{declares_function};
ghost use Rattle.c_rules.specs.Items.{defines};
ghost use Rattle.c_syntax.specs.UnitView.{maybe_init_of, storage_of};
ghost use Rattle.c_syntax.specs.View.{declarator_of, expr_of};
ghost use Rattle.c_syntax.specs.Writes.{declarator_behind};

use c_syntax::{Declarator, DeclaratorKind, Expr, Init, Storage};

// Whether it is a name alone.
fn stands_alone(inner: &Option<Box<Declarator>>) -> bool
    ensures { result ≡ stands_alone (declarator_behind inner.now) }
{
    match inner {
        Some(d) => match &d.kind {
            DeclaratorKind::Name(_) => true,
            _ => false,
        },
        None => false,
    }
}

/// Whether a function is declared: parameters stand directly behind its name (C99 6.7.5.3, 6.9.1 paragraph 2).
#[cycle(functions)]
pub fn declares_function(d: &Declarator) -> bool
    ensures { result ≡ declares_function (declarator_of d.now) }
{
    match &d.kind {
        DeclaratorKind::Name(_) => false,
        DeclaratorKind::Pointer(inner) => inner_declares(inner),
        DeclaratorKind::Array { inner, .. } => inner_declares(inner),
        DeclaratorKind::Function { inner, .. } => {
            if stands_alone(inner) {
                return true;
            }
            inner_declares(inner)
        }
    }
}

#[cycle(functions)]
fn inner_declares(inner: &Option<Box<Declarator>>) -> bool
    ensures { result ≡ declares_function (declarator_behind inner.now) }
{
    match inner {
        Some(d) => declares_function(d),
        None => false,
    }
}

/// Whether a declaration of an object defines it: it isn't extern, or has an initialiser (C99 6.9.2 paragraph 1).
pub fn defines(storage: Storage, init: &Option<Init>) -> bool
    ensures { result ≡ defines (storage_of storage) (maybe_init_of init.now) }
{
    match storage {
        Storage::Extern => init.is_some(),
        _ => true,
    }
}

/// The place of a declarator, whatever other place `place_or` would take where there is none.
pub fn place_of_declarator(d: &Declarator) -> u32
    ensures { (at : ℕ) → result ≡ place_or at (declarator_of d.now) }
{
    d.at
}

/// The place of an expression.
pub fn place_of_expression(e: &Expr) -> u32
    ensures { result ≡ place_of (expr_of e.now) }
{
    e.at
}
