ghost use Rattle.std.specs.Prelude.{◌≡◌, IfOk};
ghost use Rattle.c_check_counts.specs.Numbered.{AreFirst};
ghost use Rattle.c_syntax.specs.SeenNames.{ident_seen};
ghost use Rattle.c_check_declarations.specs.Named.{name_of_param, stands_alone};
ghost use Rattle.c_rules.specs.Functions.{parameters_of, is_named, are_named, count_params, items_of_body};
ghost use Rattle.c_syntax.specs.UnitView.{stmt_of};
ghost use Rattle.c_syntax.specs.View.{declarator_of};
ghost use Rattle.c_syntax.specs.Writes.{declarator_behind, params_of};

use c_check_counts::{Next, first_numbers, name_of};
use c_syntax::{Declarator, DeclaratorKind, Ident, Param, Stmt};
use dm_base::{Mode, OutOfMemory};
use std::alloc::Global;

// Whether it is a name alone.
fn stands_alone(inner: &Option<Box<Declarator>>) -> bool
    ensures { result ≡ stands_alone (declarator_behind inner.now) }
{
    match inner {
        Some(d) => match &d.kind {
            DeclaratorKind::Name(_) => true,
            _ => false,
        },
        None => false,
    }
}

/// The parameters of the function that the declarator declares, which stand directly behind its name; none where it declares no
/// function (C99 6.7.5.3, 6.9.1 paragraph 2).
#[cycle(parameters)]
pub fn parameters_of(d: &Declarator) -> &[Param]
    ensures { params_of result.now ≡ parameters_of (declarator_of d.now) }
{
    match &d.kind {
        DeclaratorKind::Name(_) => &[],
        DeclaratorKind::Pointer(inner) => parameters_behind(inner),
        DeclaratorKind::Array { inner, .. } => parameters_behind(inner),
        DeclaratorKind::Function { inner, params } => {
            if stands_alone(inner) {
                return params.as_slice();
            }
            parameters_behind(inner)
        }
    }
}

#[cycle(parameters)]
fn parameters_behind(inner: &Option<Box<Declarator>>) -> &[Param]
    ensures { params_of result.now ≡ parameters_of (declarator_behind inner.now) }
{
    match inner {
        Some(d) => parameters_of(d),
        None => &[],
    }
}

// The name of a parameter, where it has one.
pub fn name_of_param(p: &Param) -> Option<&Ident>
    ensures { ident_seen result ≡ name_of_param p.now }
{
    match &p.declarator {
        Some(d) => name_of(d),
        None => None,
    }
}

/// Whether each parameter has a name, as those of a definition have (C99 6.9.1 paragraph 5).
pub fn are_named(ps: &[Param]) -> bool
    ensures { result ≡ are_named (params_of ps.now) }
{
    match ps {
        [] => true,
        [p, ps @ ..] => {
            if name_of_param(p).is_none() {
                return false;
            }
            are_named(ps)
        }
    }
}

/// The first numbers of the variables in the body of the function that the declarator declares, where these and its parameters aren't too
/// many variables together (C99 5.2.4.1).
pub fn body_numbers(
    alloc: Global,
    mode: Mode,
    d: &Declarator,
    body: &Stmt,
) -> Result<Option<Next>, OutOfMemory>
    ensures { IfOk result (AreFirst mode (count_params (parameters_of (declarator_of d.now))) (items_of_body (stmt_of body.now))) }
{
    first_numbers(alloc, mode, parameters_of(d), body)
}
