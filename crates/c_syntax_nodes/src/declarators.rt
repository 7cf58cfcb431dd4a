// The nodes of declarators (C99 6.7.5) and of names of types (6.7.6).

ghost use Rattle.std.specs.Prelude.{◌≡◌, IfOk};
ghost use Rattle.c_syntax.specs.Tree.{named, pointer, array, function, type_name, more_params, Params};
ghost use Rattle.c_syntax.specs.View.{ident_of, spec_of, type_name_of, declarator_of, param_before};
ghost use Rattle.c_syntax.specs.Writes.{params_of, declarator_in, declarator_behind, expr_behind};

use c_syntax::{Declarator, DeclaratorKind, Expr, Ident, Param, Spec, TypeName};

/// The declared name.
pub fn declared_node(at: u32, name: Ident) -> Declarator
    ensures { declarator_of result ≡ named at (ident_of name) }
{
    Declarator {
        at,
        kind: DeclaratorKind::Name(name),
    }
}

/// `*` before what is a pointer (6.7.5.1).
pub fn pointer_node(at: u32, inner: Option<Box<Declarator>>) -> Declarator
    ensures { declarator_of result ≡ pointer at (declarator_behind inner) }
{
    Declarator {
        at,
        kind: DeclaratorKind::Pointer(inner),
    }
}

/// An array (6.7.5.2).
pub fn array_node(at: u32, inner: Option<Box<Declarator>>, size: Option<Box<Expr>>) -> Declarator
    ensures { declarator_of result ≡ array at (declarator_behind inner) (expr_behind size) }
{
    Declarator {
        at,
        kind: DeclaratorKind::Array { inner, size },
    }
}

/// A function (6.7.5.3).
pub fn function_node(at: u32, inner: Option<Box<Declarator>>, params: Vec<Param>) -> Declarator
    ensures { declarator_of result ≡ function at (declarator_behind inner) (params_of params.items) }
{
    Declarator {
        at,
        kind: DeclaratorKind::Function { inner, params },
    }
}

/// The name of a type.
pub fn type_name_node(at: u32, spec: Spec, declarator: Option<Declarator>) -> TypeName
    ensures { type_name_of result ≡ type_name at (spec_of spec) (declarator_in declarator) }
{
    TypeName {
        spec,
        declarator,
        at,
    }
}

/// A parameter.
pub fn param_node(at: u32, spec: Spec, declarator: Option<Declarator>) -> Param
    ensures { (rest : Params) → param_before result rest ≡ more_params at (spec_of spec) (declarator_in declarator) rest }
{
    Param {
        spec,
        declarator,
        at,
    }
}
