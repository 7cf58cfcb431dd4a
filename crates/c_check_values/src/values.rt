ghost use Rattle.std.specs.Prelude.{◌≡◌, IfOk};
ghost use Rattle.c_check_values.specs.TypedExpressionView.{constant_of, typed_expression_of};
ghost use Rattle.c_check_scopes.specs.Constants.{constant_decayed};
ghost use Rattle.c_check_scopes.specs.Conversions.{loaded, null_of};
ghost use Rattle.c_check_scopes.specs.TypedExpression.{not_constant, typed_value, tree_of};
ghost use Rattle.c_check_scopes.specs.PrimaryExpressions.{typed_unsigned};
ghost use Rattle.c_check_scopes.specs.Scopes.{layout_of};
ghost use Rattle.c_check_scopes.specs.View.{env_of};
ghost use Rattle.c_tree.specs.Layout.{cells};
ghost use Rattle.c_tree.specs.Tree.{load, pointer, decay};
ghost use Rattle.c_tree.specs.View.{ctype_of};

use crate::addresses::{constant_decayed, constant_decayed_past};
use crate::typed_expression::{Constant, Form, TypedExpression, typed_value};
use crate::types::pointer_to;
use c_check_scopes::Environment;
use c_tree::{CType, IntType, TExpr, TExprKind, Value, copy_type};
use dm_base::OutOfMemory;
use std::alloc::Global;

// The value of a place.
fn place_loaded(alloc: Global, g: TypedExpression) -> Result<TypedExpression, OutOfMemory>
    ensures { IfOk result (λ r. typed_expression_of r ≡ typed_value (typed_expression_of g).ctype (load (typed_expression_of g).ctype (tree_of (typed_expression_of g))) not_constant) }
{
    let ctype = copy_type(alloc, &g.ctype)?;
    let tree = g.into_tree(alloc)?;
    typed_value(
        alloc,
        ctype,
        TExprKind::Load(Box::new(alloc, tree)?),
        Constant::Not,
    )
}

/// The value of a scalar place (C99 6.3.2.1 paragraph 2); what is no place is a value already.
pub fn loaded(alloc: Global, g: TypedExpression) -> Result<TypedExpression, OutOfMemory>
    ensures { IfOk result (λ r. typed_expression_of r ≡ loaded (typed_expression_of g) (typed_expression_of g).form) }
{
    match &g.form {
        Form::Value(_) => Ok(g),
        _ => place_loaded(alloc, g),
    }
}

// The address of the first of such elements of an array.
fn first_address(env: &Environment<'_>, element: &CType, c: Constant) -> Constant
    ensures { constant_of result ≡ constant_decayed (cells (layout_of (env_of env.now)) (ctype_of element.now)) (constant_of c) }
{
    match env.cells(element) {
        Some(cells) => constant_decayed(cells, c),
        None => constant_decayed_past(c),
    }
}

/// An array of such elements as a pointer to its first element (C99 6.3.2.1 paragraph 3).
pub fn decayed_array(
    alloc: Global,
    env: &Environment<'_>,
    element: CType,
    g: TypedExpression,
) -> Result<TypedExpression, OutOfMemory>
    ensures { IfOk result (λ r. typed_expression_of r ≡ typed_value (pointer (ctype_of element)) (decay (pointer (ctype_of element)) (tree_of (typed_expression_of g))) (constant_decayed (cells (layout_of (env_of env.now)) (ctype_of element)) (typed_expression_of g).constant)) }
{
    let constant = first_address(env, &element, g.constant);
    let pointer = pointer_to(alloc, &element)?;
    let tree = g.into_tree(alloc)?;
    typed_value(
        alloc,
        pointer,
        TExprKind::Decay(Box::new(alloc, tree)?),
        constant,
    )
}

/// A function as a pointer to it, of this type (C99 6.3.2.1 paragraph 4).
pub fn decayed_function(
    alloc: Global,
    pointer: CType,
    g: TypedExpression,
) -> Result<TypedExpression, OutOfMemory>
    ensures { IfOk result (λ r. typed_expression_of r ≡ typed_value (ctype_of pointer) (decay (ctype_of pointer) (tree_of (typed_expression_of g))) (typed_expression_of g).constant) }
{
    let constant = g.constant;
    let tree = g.into_tree(alloc)?;
    typed_value(
        alloc,
        pointer,
        TExprKind::Decay(Box::new(alloc, tree)?),
        constant,
    )
}

/// A null pointer of a type (C99 6.3.2.3 paragraph 3).
pub fn null_of(alloc: Global, t: &CType) -> Result<TypedExpression, OutOfMemory>
    ensures { IfOk result (λ r. typed_expression_of r ≡ null_of (ctype_of t.now)) }
{
    let ctype = copy_type(alloc, t)?;
    typed_value(
        alloc,
        ctype,
        TExprKind::Const(Value::Null),
        Constant::Known(Value::Null),
    )
}

/// A number of the type of `sizeof` (C99 6.5.3.4 paragraph 4).
pub fn typed_unsigned(n: u32) -> TypedExpression
    ensures { typed_expression_of result ≡ typed_unsigned n }
{
    TypedExpression {
        ctype: CType::Int(IntType::Uint),
        form: Form::Value(TExpr {
            ctype: CType::Int(IntType::Uint),
            kind: TExprKind::Const(Value::Uint(n)),
        }),
        constant: Constant::Known(Value::Uint(n)),
    }
}
