ghost use Rattle.std.specs.Prelude.{◌≡◌, IfOk};
ghost use Rattle.c_check_values.specs.TypedExpressionView.{typed_expression_of};
ghost use Rattle.c_check_operators.specs.Alike.{alike_as, pointer_left, pointer_right};
ghost use Rattle.c_rules.specs.BinaryExpressions.{pointers_alike, alike};

use c_check_values::{TypedExpression, common, null_of, same_type};
use c_tree::{CType, IntType};
use dm_base::OutOfMemory;
use std::alloc::Global;

/// Which of two operands is to be made a null pointer of the other one's type.
#[derive(Clone, Copy)]
pub enum NullSide {
    Neither,
    Left,
    Right,
}

/// What two operands are that `==`, `!=` and `?:` take (C99 6.5.9 paragraph 2, 6.5.15 paragraphs 3 and 6).
#[derive(Clone, Copy)]
pub enum Alike {
    /// Two integers, converted to this type.
    Integers(IntType),
    /// Two pointers of one type, once a null pointer is made of this one.
    Pointers(NullSide),
    /// Neither.
    Unlike,
}

// Two pointers of any types.
fn pointers_alike(a: &TypedExpression, b: &TypedExpression) -> Alike
    ensures { pointers_alike (typed_expression_of a.now) (typed_expression_of b.now) ≡ alike_as result (typed_expression_of a.now) (typed_expression_of b.now) }
{
    if same_type(&a.ctype, &b.ctype) {
        return Alike::Pointers(NullSide::Neither);
    }
    if a.is_null() {
        return Alike::Pointers(NullSide::Left);
    }
    if b.is_null() {
        return Alike::Pointers(NullSide::Right);
    }
    Alike::Unlike
}

/// What two operands are.
pub fn alike_of(a: &TypedExpression, b: &TypedExpression) -> Alike
    ensures { alike (typed_expression_of a.now) (typed_expression_of b.now) ≡ alike_as result (typed_expression_of a.now) (typed_expression_of b.now) }
{
    match &a.ctype {
        CType::Int(i) => match &b.ctype {
            CType::Int(j) => Alike::Integers(common(*i, *j)),
            CType::Pointer(_) => {
                if !a.is_null() {
                    return Alike::Unlike;
                }
                Alike::Pointers(NullSide::Left)
            }
            _ => Alike::Unlike,
        },
        CType::Pointer(_) => match &b.ctype {
            CType::Int(_) => {
                if !b.is_null() {
                    return Alike::Unlike;
                }
                Alike::Pointers(NullSide::Right)
            }
            CType::Pointer(_) => pointers_alike(a, b),
            CType::Void | CType::Array(_, _) | CType::Struct(_) | CType::Function(_, _) => {
                Alike::Unlike
            }
        },
        _ => Alike::Unlike,
    }
}

/// Two pointers of one type.
pub struct Pointers {
    pub left: TypedExpression,
    pub right: TypedExpression,
}

/// Two operands as pointers of one type.
pub fn made_pointers(
    alloc: Global,
    side: NullSide,
    a: TypedExpression,
    b: TypedExpression,
) -> Result<Pointers, OutOfMemory>
    ensures left { IfOk result (λ r. typed_expression_of r.left ≡ pointer_left side (typed_expression_of a) (typed_expression_of b)) }
    ensures right { IfOk result (λ r. typed_expression_of r.right ≡ pointer_right side (typed_expression_of a) (typed_expression_of b)) }
{
    match side {
        NullSide::Neither => Ok(Pointers { left: a, right: b }),
        NullSide::Left => {
            let left = null_of(alloc, &b.ctype)?;
            Ok(Pointers { left, right: b })
        }
        NullSide::Right => {
            let right = null_of(alloc, &a.ctype)?;
            Ok(Pointers { left: a, right })
        }
    }
}
