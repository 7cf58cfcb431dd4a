ghost use Rattle.std.specs.Prelude.{◌≡◌, IfOk};
ghost use Rattle.c_check_scopes.specs.TypedExpression.{is_place, is_null, is_zero, is_known_zero, tree_of, typed_value, integer_constant};
ghost use Rattle.c_tree.specs.View.{ctype_of, expr_of, expr_with};
ghost use Rattle.c_check_values.specs.TypedExpressionView.{typed_expression_of, constant_of};

use crate::types::{is_function, is_integer};
use c_tree::{CType, TExpr, TExprKind, Value, copy_type};
use dm_base::OutOfMemory;
use std::alloc::Global;

/// Whether an expression gives a value, or designates an object or a function (C99 6.3.2.1).
#[derive(Drop)]
pub enum Form {
    /// A value.
    Value(TExpr),
    /// A place: an object or a function.
    Place(TExpr),
    /// What this pointer leads to (6.5.3.2).
    Behind(TExpr),
}

/// Whether an expression is constant by its form (C99 6.6), and then its value.
#[derive(Clone, Copy)]
pub enum Constant {
    /// It is not constant.
    Not,
    /// It is constant, and its value is undefined.
    Undefined,
    /// It is constant and has this value; that of a place is the address that leads to it.
    Known(Value),
}

/// What an expression gives (C99 6.5).
pub struct TypedExpression {
    /// Its type, that of the object or function where it designates one.
    pub ctype: CType,
    /// Its form, with its typed tree.
    pub form: Form,
    /// Its constant value, where it has one.
    pub constant: Constant,
}

impl Drop for TypedExpression {
    fn drop(self) {
        let Self {
            ctype: _ctype,
            form: _form,
            constant: _,
        } = self;
    }
}

/// Whether it is zero, of any integer type, or the null pointer.
pub fn is_zero(value: Value) -> bool
    ensures { result ≡ is_zero value }
{
    match value {
        Value::Int(z) => z == 0,
        Value::Uint(n) => n == 0,
        Value::Char(z) => z == 0,
        Value::Uchar(n) => n == 0,
        Value::Null => true,
        _ => false,
    }
}

impl Constant {
    /// Whether it is known and zero, of any integer type, or the null pointer.
    pub fn is_zero(&self) -> bool
        ensures { result ≡ is_known_zero (constant_of self.now) }
    {
        match self {
            Constant::Known(value) => is_zero(*value),
            _ => false,
        }
    }
}

impl TypedExpression {
    // Whether it is a value.
    fn is_value(&self) -> bool
        ensures { result ≡ Rattle.c_check_scopes.specs.TypedExpression.is_value (typed_expression_of self.now).form }
    {
        match &self.form {
            Form::Value(_) => true,
            _ => false,
        }
    }

    /// Whether it designates an object (C99 6.3.2.1 paragraph 1).
    pub fn is_place(&self) -> bool
        ensures { result ≡ is_place (typed_expression_of self.now) }
    {
        !self.is_value() && !is_function(&self.ctype)
    }

    /// Whether it is a null pointer constant (C99 6.3.2.3 paragraph 3).
    pub fn is_null(&self) -> bool
        ensures { result ≡ is_null (typed_expression_of self.now) }
    {
        self.constant.is_zero()
    }

    /// The constant of an integer; no other is part of a constant integer expression (C99 6.6 paragraph 6).
    pub fn integer_constant(&self) -> Constant
        ensures { constant_of result ≡ integer_constant (typed_expression_of self.now) }
    {
        if is_integer(&self.ctype) {
            self.constant
        } else {
            Constant::Not
        }
    }

    /// Its type, its form and its constant value.
    pub fn into_parts(self) -> (CType, Form, Constant)
        ensures its_type { result.0 ≡ self.ctype }
        ensures its_form { result.1 ≡ self.form }
        ensures its_constant { result.2 ≡ self.constant }
    {
        let Self {
            ctype,
            form,
            constant,
        } = self;
        (ctype, form, constant)
    }

    /// The typed tree.
    pub fn into_tree(self, alloc: Global) -> Result<TExpr, OutOfMemory>
        ensures { IfOk result (λ tree. expr_of tree ≡ tree_of (typed_expression_of self)) }
    {
        let (ctype, form, _) = self.into_parts();
        match form {
            Form::Value(tree) => Ok(tree),
            Form::Place(tree) => Ok(tree),
            Form::Behind(pointer) => Ok(TExpr {
                ctype,
                kind: TExprKind::Deref(Box::new(alloc, pointer)?),
            }),
        }
    }
}

/// A value of a type, with the form of its tree.
pub fn typed_value(
    alloc: Global,
    ctype: CType,
    kind: TExprKind,
    constant: Constant,
) -> Result<TypedExpression, OutOfMemory>
    ensures { IfOk result (λ g. typed_expression_of g ≡ typed_value (ctype_of ctype) (expr_with (ctype_of ctype) kind) (constant_of constant)) }
{
    let copied = copy_type(alloc, &ctype)?;
    Ok(TypedExpression {
        ctype: copied,
        form: Form::Value(TExpr { ctype, kind }),
        constant,
    })
}
