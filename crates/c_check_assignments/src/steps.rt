ghost use Rattle.std.specs.Prelude.{pos, ◌≡◌};
ghost use Rattle.c_check_values.specs.Agreement.{AgreesWith};
ghost use Rattle.c_check_values.specs.TypedExpressionView.{typed_expression_of};
ghost use Rattle.c_rules.specs.Assignments.{one_for, step};
ghost use Rattle.c_rules.specs.Conversions.{kind_of};
ghost use Rattle.c_rules.specs.TypedExpression.{not_constant, typed_value};
ghost use Rattle.c_check_values.specs.View.{env_of};
ghost use Rattle.c_tree.specs.Functions.{int};
ghost use Rattle.c_tree.specs.Operators.{value_of};
ghost use Rattle.c_tree.specs.Tree.{constant, integer};
ghost use Rattle.c_tree.specs.View.{ctype_of};
ghost use Rattle.c_tree.specs.declared.value.Value.TheVariants.{Int};

use crate::updates::update;
use c_check_values::{CheckError, Constant, Environment, Form, TypedExpression, common};
use c_tree::{BinOp, CType, IntType, TExpr, TExprKind, Value};
use std::alloc::Global;

// The constant 1 of an integer type.
fn one(i: IntType) -> Value
    ensures { result ≡ value_of i (pos 1) }
{
    match i {
        IntType::Char => Value::Char(1),
        IntType::Uchar => Value::Uchar(1),
        IntType::Int => Value::Int(1),
        IntType::Uint => Value::Uint(1),
    }
}

// The constant 1 of an integer type, as an operand.
fn integer_one(i: IntType) -> TypedExpression
    ensures { typed_expression_of result ≡ typed_value (integer i) (constant (integer i) (value_of i (pos 1))) not_constant }
{
    TypedExpression {
        ctype: CType::Int(i),
        form: Form::Value(TExpr {
            ctype: CType::Int(i),
            kind: TExprKind::Const(one(i)),
        }),
        constant: Constant::Not,
    }
}

// The constant 1 as an int.
fn int_one() -> TypedExpression
    ensures { typed_expression_of result ≡ typed_value int (constant int (Int (pos 1))) not_constant }
{
    TypedExpression {
        ctype: CType::Int(IntType::Int),
        form: Form::Value(TExpr {
            ctype: CType::Int(IntType::Int),
            kind: TExprKind::Const(Value::Int(1)),
        }),
        constant: Constant::Not,
    }
}

// The constant 1 in the type of the operator of a step.
fn one_for(t: &CType) -> TypedExpression
    ensures { typed_expression_of result ≡ one_for (kind_of (ctype_of t.now)) }
{
    match t {
        CType::Int(i) => integer_one(common(*i, IntType::Int)),
        _ => int_one(),
    }
}

/// A step: a compound assignment of the constant 1 (C99 6.5.3.1 paragraph 2, 6.5.2.4 paragraph 2); `old` says whether its value is the
/// old one. A place that is neither an integer nor a pointer to an object is C3 at `at`.
pub fn step(
    alloc: Global,
    env: &Environment<'_>,
    at: u32,
    op: BinOp,
    old: bool,
    p: TypedExpression,
) -> Result<TypedExpression, CheckError>
    ensures { AgreesWith typed_expression_of result (step (env_of env.now) at op old (typed_expression_of p)) }
{
    let one = one_for(&p.ctype);
    update(alloc, env, at, op, old, p, one)
}
