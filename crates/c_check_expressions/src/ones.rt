ghost use Rattle.std.specs.Prelude.{◌≡◌, OnOk};
ghost use Rattle.c_check_initialisers.specs.CellView.{cells_of};
ghost use Rattle.c_check_types.specs.Agreement.{AgreesWith};
ghost use Rattle.c_rules.specs.Counts.{after, calls, past};
ghost use Rattle.c_rules.specs.Expressions.{value};
ghost use Rattle.c_rules.specs.Initialisers.{cells_of_one, held_by_one, scalar_cell, text_of};
ghost use Rattle.c_check_counts.specs.View.{before_of, env_of};
ghost use Rattle.c_syntax.specs.View.{expr_of};
ghost use Rattle.c_tree.specs.View.{ctype_of};

use crate::expressions::value;
use c_check_counts::{Before, Environment};
use c_check_initialisers::{array_cells, scalar_cells};
use c_check_types::{C14, CheckError, TypedExpression};
use c_syntax::Expr;
use c_tree::CType;
use std::alloc::Global;

// The cell of a scalar, which one expression initialises.
fn scalar_initialised<'t>(
    alloc: Global,
    env: &mut Environment<'t>,
    before: &mut Before<'t>,
    is_static: bool,
    at: u32,
    t: &CType,
    e: &'t Expr,
) -> Result<Vec<TypedExpression>, CheckError>
    ensures judged { AgreesWith cells_of result (scalar_cell is_static at (ctype_of t.now) (value (env_of env.old) (before_of before.old) (expr_of e.now))) }
    ensures counted { OnOk result (before_of before.new ≡ after (before_of before.old) (expr_of e.now)) }
    ensures kept { OnOk result (env.new ≡ env.old) }
{
    let given = value(alloc, env, before, e)?;
    scalar_cells(alloc, is_static, at, t, given)
}

// The cells of an object of this type, which one expression initialises (C99 6.7.8 paragraphs 11 and 14). A string that initialises an
// array of char isn't held by the program.
pub fn one_initialised<'t>(
    alloc: Global,
    env: &mut Environment<'t>,
    before: &mut Before<'t>,
    is_static: bool,
    at: u32,
    t: &CType,
    e: &'t Expr,
) -> Result<Vec<TypedExpression>, CheckError>
    ensures judged { AgreesWith cells_of result (cells_of_one is_static at (ctype_of t.now) (text_of (expr_of e.now)) (value (env_of env.old) (before_of before.old) (expr_of e.now))) }
    ensures counted { OnOk result (before_of before.new ≡ past (before_of before.old) (calls (expr_of e.now)) (held_by_one (ctype_of t.now) (expr_of e.now))) }
    ensures kept { OnOk result (env.new ≡ env.old) }
{
    match t {
        CType::Void => Err(CheckError::At(C14, at)),
        CType::Int(_) => scalar_initialised(alloc, env, before, is_static, at, t, e),
        CType::Pointer(_) => scalar_initialised(alloc, env, before, is_static, at, t, e),
        CType::Array(element, n) => array_cells(alloc, at, element, *n, e),
        CType::Struct(_) => Err(CheckError::At(C14, at)),
        CType::Function(_, _) => Err(CheckError::At(C14, at)),
    }
}
