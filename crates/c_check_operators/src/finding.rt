ghost use Rattle.std.specs.Prelude.{◌≡◌};
ghost use Rattle.c_check_values.specs.Agreement.{AgreesWith};
ghost use Rattle.c_check_values.specs.TypedExpressionView.{typed_expression_of};
ghost use Rattle.c_check_operators.specs.Found.{operation_as};
ghost use Rattle.c_rules.specs.BinaryExpressions.{operator_of_code, sum, minus_of, balanced_of, shift_of, ordered_of, alike, equality_of, operation};
ghost use Rattle.c_rules.specs.Conversions.{kind_of};
ghost use Rattle.c_check_values.specs.View.{env_of};

use crate::alike::{Alike, NullSide, alike_of};
use c_check_values::{
    C3, CheckError, Environment, TypedExpression, common, complete, promoted, same_type,
};
use c_lexer::punctuator;
use c_tree::{BinOp, CType, IntType};

/// The operator that a punctuator is between two operands, by its number (C99 6.5.5 to 6.5.12).
pub fn operator_of_code(code: u8) -> BinOp
    ensures { result ≡ operator_of_code code }
{
    if code == punctuator::ASTERISK {
        BinOp::Mul
    } else if code == punctuator::SLASH {
        BinOp::Div
    } else if code == punctuator::PERCENT {
        BinOp::Rem
    } else if code == punctuator::PLUS {
        BinOp::Add
    } else if code == punctuator::MINUS {
        BinOp::Sub
    } else if code == punctuator::LEFT_SHIFT {
        BinOp::ShiftLeft
    } else if code == punctuator::RIGHT_SHIFT {
        BinOp::ShiftRight
    } else if code == punctuator::AMPERSAND {
        BinOp::BitAnd
    } else if code == punctuator::CARET {
        BinOp::BitXor
    } else if code == punctuator::BAR {
        BinOp::BitOr
    } else if code == punctuator::LESS {
        BinOp::Less
    } else if code == punctuator::GREATER {
        BinOp::Greater
    } else if code == punctuator::LESS_EQUAL {
        BinOp::LessEqual
    } else if code == punctuator::GREATER_EQUAL {
        BinOp::GreaterEqual
    } else if code == punctuator::EQUAL_EQUAL {
        BinOp::Equal
    } else {
        BinOp::NotEqual
    }
}

// What a binary operator does with two operands.
#[derive(Clone, Copy)]
pub enum Operation {
    // It calculates with two integers that are converted to this type, which the result has.
    Arithmetic(BinOp, IntType),
    // It shifts an integer by another one, each converted to its promoted type.
    Shift(BinOp, IntType, IntType),
    // It compares two integers that are converted to this type.
    OfIntegers(BinOp, IntType),
    // It compares two pointers, of which one may have to be made a null pointer of the other one's type.
    OfPointers(BinOp, NullSide),
    // It adds an integer to a pointer.
    PointerPlus,
    // It adds a pointer to an integer.
    PlusPointer,
    // It subtracts an integer from a pointer.
    PointerMinus,
    // It subtracts two pointers.
    Difference,
}

// `* / % & ^ |`: integers alone (C99 6.5.5, 6.5.10 to 6.5.12).
fn balanced(
    at: u32,
    op: BinOp,
    a: &TypedExpression,
    b: &TypedExpression,
) -> Result<Operation, CheckError>
    ensures { AgreesWith (λ found. operation_as found (typed_expression_of a.now) (typed_expression_of b.now)) result (balanced_of at op (typed_expression_of a.now) (typed_expression_of b.now) (kind_of (typed_expression_of a.now).ctype) (kind_of (typed_expression_of b.now).ctype)) }
{
    match &a.ctype {
        CType::Int(i) => match &b.ctype {
            CType::Int(j) => Ok(Operation::Arithmetic(op, common(*i, *j))),
            _ => Err(CheckError::At(C3, at)),
        },
        _ => Err(CheckError::At(C3, at)),
    }
}

// Shifts of integers (C99 6.5.7).
fn shift(
    at: u32,
    op: BinOp,
    a: &TypedExpression,
    b: &TypedExpression,
) -> Result<Operation, CheckError>
    ensures { AgreesWith (λ found. operation_as found (typed_expression_of a.now) (typed_expression_of b.now)) result (shift_of at op (typed_expression_of a.now) (typed_expression_of b.now) (kind_of (typed_expression_of a.now).ctype) (kind_of (typed_expression_of b.now).ctype)) }
{
    match &a.ctype {
        CType::Int(i) => match &b.ctype {
            CType::Int(j) => Ok(Operation::Shift(op, promoted(*i), promoted(*j))),
            _ => Err(CheckError::At(C3, at)),
        },
        _ => Err(CheckError::At(C3, at)),
    }
}

// `+` (C99 6.5.6 paragraph 2): two integers, or a pointer to an object and an integer.
pub fn addition(
    env: &Environment<'_>,
    at: u32,
    a: &TypedExpression,
    b: &TypedExpression,
) -> Result<Operation, CheckError>
    ensures { AgreesWith (λ found. operation_as found (typed_expression_of a.now) (typed_expression_of b.now)) result (sum (env_of env.now) at (typed_expression_of a.now) (typed_expression_of b.now)) }
{
    match &a.ctype {
        CType::Int(i) => match &b.ctype {
            CType::Int(j) => Ok(Operation::Arithmetic(BinOp::Add, common(*i, *j))),
            CType::Pointer(t) => {
                complete(env, at, t)?;
                Ok(Operation::PlusPointer)
            }
            _ => Err(CheckError::At(C3, at)),
        },
        CType::Pointer(t) => match &b.ctype {
            CType::Int(_) => {
                complete(env, at, t)?;
                Ok(Operation::PointerPlus)
            }
            _ => Err(CheckError::At(C3, at)),
        },
        _ => Err(CheckError::At(C3, at)),
    }
}

// `-` (C99 6.5.6 paragraph 3): two integers, a pointer to an object and an integer, or two pointers to objects of one type.
fn subtraction(
    env: &Environment<'_>,
    at: u32,
    a: &TypedExpression,
    b: &TypedExpression,
) -> Result<Operation, CheckError>
    ensures { AgreesWith (λ found. operation_as found (typed_expression_of a.now) (typed_expression_of b.now)) result (minus_of (env_of env.now) at (typed_expression_of a.now) (typed_expression_of b.now) (kind_of (typed_expression_of a.now).ctype) (kind_of (typed_expression_of b.now).ctype)) }
{
    match &a.ctype {
        CType::Int(i) => match &b.ctype {
            CType::Int(j) => Ok(Operation::Arithmetic(BinOp::Sub, common(*i, *j))),
            _ => Err(CheckError::At(C3, at)),
        },
        CType::Pointer(t) => match &b.ctype {
            CType::Int(_) => {
                complete(env, at, t)?;
                Ok(Operation::PointerMinus)
            }
            CType::Pointer(u) => {
                if !same_type(t, u) {
                    return Err(CheckError::At(C3, at));
                }
                complete(env, at, t)?;
                Ok(Operation::Difference)
            }
            _ => Err(CheckError::At(C3, at)),
        },
        _ => Err(CheckError::At(C3, at)),
    }
}

// Comparisons by order: two integers, or two pointers to objects of one type (C99 6.5.8 paragraph 2).
fn ordering(
    env: &Environment<'_>,
    at: u32,
    op: BinOp,
    a: &TypedExpression,
    b: &TypedExpression,
) -> Result<Operation, CheckError>
    ensures { AgreesWith (λ found. operation_as found (typed_expression_of a.now) (typed_expression_of b.now)) result (ordered_of (env_of env.now) at op (typed_expression_of a.now) (typed_expression_of b.now) (kind_of (typed_expression_of a.now).ctype) (kind_of (typed_expression_of b.now).ctype)) }
{
    match &a.ctype {
        CType::Int(i) => match &b.ctype {
            CType::Int(j) => Ok(Operation::OfIntegers(op, common(*i, *j))),
            _ => Err(CheckError::At(C3, at)),
        },
        CType::Pointer(t) => match &b.ctype {
            CType::Pointer(u) => {
                if !same_type(t, u) {
                    return Err(CheckError::At(C3, at));
                }
                complete(env, at, t)?;
                Ok(Operation::OfPointers(op, NullSide::Neither))
            }
            _ => Err(CheckError::At(C3, at)),
        },
        _ => Err(CheckError::At(C3, at)),
    }
}

// `==` and `!=` (C99 6.5.9).
fn equality(
    at: u32,
    op: BinOp,
    a: &TypedExpression,
    b: &TypedExpression,
) -> Result<Operation, CheckError>
    ensures { AgreesWith (λ found. operation_as found (typed_expression_of a.now) (typed_expression_of b.now)) result (equality_of at op (typed_expression_of a.now) (typed_expression_of b.now) (alike (typed_expression_of a.now) (typed_expression_of b.now))) }
{
    match alike_of(a, b) {
        Alike::Integers(i) => Ok(Operation::OfIntegers(op, i)),
        Alike::Pointers(side) => Ok(Operation::OfPointers(op, side)),
        Alike::Unlike => Err(CheckError::At(C3, at)),
    }
}

// What a binary operator of C99 6.5.5 to 6.5.12 does with two values.
pub fn operation_of(
    env: &Environment<'_>,
    at: u32,
    op: BinOp,
    a: &TypedExpression,
    b: &TypedExpression,
) -> Result<Operation, CheckError>
    ensures { AgreesWith (λ found. operation_as found (typed_expression_of a.now) (typed_expression_of b.now)) result (operation (env_of env.now) at op (typed_expression_of a.now) (typed_expression_of b.now)) }
{
    match op {
        BinOp::Add => addition(env, at, a, b),
        BinOp::Sub => subtraction(env, at, a, b),
        BinOp::Mul | BinOp::Div | BinOp::Rem | BinOp::BitAnd | BinOp::BitXor | BinOp::BitOr =>
            balanced(at, op, a, b),
        BinOp::ShiftLeft | BinOp::ShiftRight => shift(at, op, a, b),
        BinOp::Less | BinOp::Greater | BinOp::LessEqual | BinOp::GreaterEqual => {
            ordering(env, at, op, a, b)
        }
        BinOp::Equal | BinOp::NotEqual => equality(at, op, a, b),
    }
}
