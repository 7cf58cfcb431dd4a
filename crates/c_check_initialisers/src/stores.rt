ghost use Rattle.std.specs.Prelude.{◌≡◌, ◌≤◌, length, IfOk};
ghost use Rattle.c_check_initialisers.specs.CellView.{typed_expressions_of};
ghost use Rattle.c_check_values.specs.TypedExpressionView.{typed_expression_of};
ghost use Rattle.c_rules.specs.Limits.{most_cells};
ghost use Rattle.c_rules.specs.TypedExpression.{tree_of};
ghost use Rattle.c_rules.specs.Initialisers.{stores_from};
ghost use Rattle.c_tree.specs.View.{expr_of, inits_of};

use c_check_values::TypedExpression;
use c_tree::TInit;
use dm_base::OutOfMemory;
use std::alloc::Global;

// The store of one cell.
fn store_of(alloc: Global, cell: u32, g: TypedExpression) -> Result<TInit, OutOfMemory>
    ensures { IfOk result (λ x. (x.cell ≡ cell) × (expr_of x.value ≡ tree_of (typed_expression_of g))) }
{
    let value = g.into_tree(alloc)?;
    Ok(TInit { cell, value })
}

/// The cells of a variable in order, with their values; they are within the limit on the cells of an object.
pub fn stores_of(alloc: Global, cells: Vec<TypedExpression>) -> Result<Vec<TInit>, OutOfMemory>
    requires few { length cells.items ≤ most_cells }
    ensures { IfOk result (λ stores. inits_of stores.items ≡ stores_from 0 (typed_expressions_of cells.items)) }
{
    let mut stores = Vec::new(alloc);
    for g in cells {
        let store = store_of(alloc, stores.len() as u32, g)?;
        stores.push(store)?;
    }
    Ok(stores)
}
