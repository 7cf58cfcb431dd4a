ghost use Rattle.std.specs.Prelude.{◌∷◌, []};
ghost use Rattle.c_check_initialisers.specs.CellView.{cells_of};
ghost use Rattle.c_check_values.specs.Agreement.{AgreesWith};
ghost use Rattle.c_check_values.specs.TypedExpressionView.{typed_expression_of};
ghost use Rattle.c_rules.specs.Checked.{fine};
ghost use Rattle.c_rules.specs.Initialisers.{cell_of, scalar_cell};
ghost use Rattle.c_tree.specs.View.{ctype_of};

use c_check_values::{C6, CheckError, Constant, TypedExpression, as_if_assigned};
use c_tree::CType;
use std::alloc::Global;

// One cell.
fn one_cell(alloc: Global, g: TypedExpression) -> Result<Vec<TypedExpression>, CheckError>
    ensures { AgreesWith cells_of result (fine (typed_expression_of g ∷ [])) }
{
    let mut cells = Vec::new(alloc);
    cells.push(g)?;
    Ok(cells)
}

// One cell, which in a static object is constant and defined (C99 6.6 paragraphs 7 to 9, 6.7.8 paragraph 4).
fn cell_of(
    alloc: Global,
    is_static: bool,
    at: u32,
    g: TypedExpression,
) -> Result<Vec<TypedExpression>, CheckError>
    ensures { AgreesWith cells_of result (cell_of is_static at (typed_expression_of g)) }
{
    if !is_static {
        return one_cell(alloc, g);
    }
    match g.constant {
        Constant::Not | Constant::Undefined => Err(CheckError::At(C6, at)),
        Constant::Known(_) => one_cell(alloc, g),
    }
}

/// The cell of a scalar of this type, which one expression initialises as if by assignment (C99 6.7.8 paragraph 11).
pub fn scalar_cells(
    alloc: Global,
    is_static: bool,
    at: u32,
    t: &CType,
    g: TypedExpression,
) -> Result<Vec<TypedExpression>, CheckError>
    ensures { AgreesWith cells_of result (scalar_cell is_static at (ctype_of t.now) (fine (typed_expression_of g))) }
{
    let assigned = as_if_assigned(alloc, at, t, g)?;
    cell_of(alloc, is_static, at, assigned)
}
